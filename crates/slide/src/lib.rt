// A packed bitmap moved sideways inside one lent memory: the bitmap and the moved one are places of one
// slice, which is lent in two parts.
#![tactic(auto)]

ghost use Rattle.std.specs.Prelude.{◌+◌, ◌*◌, ◌≤◌, pos, length, drop};
ghost use Rattle.rules.specs.Limits.{max_side};
ghost use Rattle.rules.specs.Planes.{shifted};
ghost use Rattle.rules.specs.Bitmaps.{row_words, bit_at, word_of};
ghost use Rattle.rules.specs.Buffers.{FrameAt};

use shift_words::move_rows;
use words::biased;
use words::moves::move_by;

// The bitmap of w by h at place `from`, moved right by dx, written at place `to` of the same memory. It
// lies before `to`, so it is never overwritten.
pub fn slide_within(words: &mut [u64], from: usize, w: usize, h: usize, dx: i32, to: usize)
    requires width { w ≤ max_side }
    requires height { h ≤ max_side }
    requires apart { from + row_words w * h ≤ to }
    requires room { to + row_words w * h ≤ length words.old }
    ensures { FrameAt to (row_words w) (word_of w (shifted w h dx (pos 0) (bit_at w h (drop from words.old)))) words.old h words.new }
{
    let m = move_by(w, biased(dx));
    let (bitmap, moved) = words.split_at_mut(to);
    move_rows(bitmap, from, moved, 0, m, h);
}
