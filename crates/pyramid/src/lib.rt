// Halving of a grey frame inside one lent memory, level under level.
#![tactic(auto)]

ghost use Rattle.std.specs.Prelude.{◌+◌, ◌*◌, ◌/◌, ◌≤◌, length, drop};
ghost use Rattle.rules.specs.Frames.{frame_of};
ghost use Rattle.rules.specs.Greys.{halved};
ghost use Rattle.rules.specs.Buffers.{FrameAt};

use halve::halving::halve_frame;

// The grey frame of w by h at place `from`, halved to place `to` of the same memory.
pub fn halve_within(grey: &mut [u8], from: usize, w: usize, h: usize, to: usize)
    requires h_bound { from + w * h ≤ to }
    requires h_in_bounds { to + w / 2 * (h / 2) ≤ length grey.old }
    ensures { FrameAt to (w / 2) (halved (frame_of w (drop from grey.old))) grey.old (h / 2) grey.new }
{
    let (above, below) = grey.split_at_mut(to);
    halve_frame(&above[from..], w, h, below);
}
