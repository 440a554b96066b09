// The offered shift of a packed bitmap.
#![tactic(auto)]

ghost use Rattle.rules.specs.RefusalNumbers.{coded};
ghost use Rattle.rules.specs.Calls.{ShiftCall};

use frame_refusals::shift_refusal;
use rules::Refusal;

pub mod moved_rows;

// Shift of a lent bitmap into a lent one, by any two signed numbers.
pub fn shift(
    w: usize,
    h: usize,
    dx: i32,
    dy: i32,
    bitmap: &[u64],
    out: &mut [u64],
) -> Result<(), Refusal>
    ensures { ShiftCall w h dx dy bitmap.now out.old out.new (coded result) }
{
    shift_refusal(w, h, bitmap.len(), out.len())?;
    moved_rows::shift_bitmap(w, h, dx, dy, bitmap, out);
    Ok(())
}
