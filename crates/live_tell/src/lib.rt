// The live bracket: its offsets are told.
#![tactic(auto)]

ghost use Rattle.rules.specs.RefusalNumbers.{coded};
ghost use Rattle.rules.specs.Levels.{least_move_order};
ghost use Rattle.live.specs.LiveCalls.{TellCall};

use held_numbers::{PAIRS, bracket_of};
use live_refusals::tell_refusal;
use offsets::frame_offsets;
use rules::Refusal;

// The offsets of the frames held from the oldest, dx and dy of each, oldest first; none where none is held.
// Of the pairs only those in use are lent on.
pub fn tell(held: &[i32], newest: &[u8], offsets: &mut [i32]) -> Result<u32, Refusal>
    ensures { TellCall least_move_order held.now newest.now offsets.old offsets.new (coded result) }
{
    tell_refusal(held, newest.len(), offsets.len())?;
    let b = bracket_of(held);
    let frames = b.frames;
    if frames == 0 {
        return Ok(0);
    }
    let last = frames - 1;
    let end = PAIRS + 2 * last;
    let told = frames as u32;
    frame_offsets(&held[PAIRS..end], frames, 0, offsets);
    Ok(told)
}
