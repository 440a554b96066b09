// The shift's core. The horizontal move is divided by 64 once, before the rows begin.

ghost use Rattle.std.specs.Prelude.{◌≡◌, length};
ghost use Rattle.rules.specs.Frames.{written_over};
ghost use Rattle.rules.specs.Planes.{shifted};
ghost use Rattle.rules.specs.Bitmaps.{bit_at, packed};
ghost use Rattle.rules.specs.Accepted.{ShiftOk};

use shift_rows::place_rows;
use words::biased;
use words::moves::move_by;

// The whole bitmap, moved right by dx and down by dy.
pub fn shift_bitmap(w: usize, h: usize, dx: i32, dy: i32, bitmap: &[u64], out: &mut [u64])
    requires { ShiftOk w h (length bitmap.now) (length out.old) }
    ensures { out.new ≡ written_over (packed w h (shifted w h dx dy (bit_at w h bitmap.now))) out.old }
{
    let m = move_by(w, biased(dx));
    place_rows(bitmap, out, h, biased(dy), m);
}
