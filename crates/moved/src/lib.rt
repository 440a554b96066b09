// The moved frame: the offered call.
#![tactic(auto)]

ghost use Rattle.rules.specs.RefusalNumbers.{coded, number_in};
ghost use Rattle.std.specs.Prelude.{◌≡◌};
ghost use Rattle.moved.specs.Moved.{moved_refusal, MovedCall};

use clipping::clip;
use placing::place_rows;
use refusals::{Faults, NONE, lowest, size_refusal};
use rules::Refusal;

mod clipping;
mod placing;

#[tactic(auto, unfolding(crate::specs::Moved::moved_refusal))]
fn moved_refusal(w: usize, h: usize, raster: usize, out: usize) -> Result<(), Refusal>
    ensures { number_in result ≡ moved_refusal w h raster out }
{
    size_refusal(w, h)?;
    let bytes = 3 * (w * h);
    lowest(Faults {
        length: raster != bytes,
        room: out < bytes,
        ..NONE
    })
}

// The frame moved right by dx and down by dy, with 0,0,0 where nothing comes from inside.
pub fn moved(
    w: usize,
    h: usize,
    dx: i32,
    dy: i32,
    raster: &[u8],
    out: &mut [u8],
) -> Result<(), Refusal>
    ensures { MovedCall w h dx dy raster.now out.old out.new (coded result) }
{
    moved_refusal(w, h, raster.len(), out.len())?;
    place_rows(raster, out, w, h, clip(w, dx), clip(h, dy));
    Ok(())
}
