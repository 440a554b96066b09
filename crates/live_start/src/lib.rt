// The live bracket: a held series is started.
#![tactic(auto)]

ghost use Rattle.rules.specs.RefusalNumbers.{coded};
ghost use Rattle.rules.specs.Levels.{least_move_order};
ghost use Rattle.live.specs.LiveCalls.{StartCall};

use held_writes::put_bracket;
use live::Bracket;
use live_refusals::start_refusal;
use rules::Refusal;

// Starts a live bracket in the lent memory, whatever that held: size and settings, and no frame.
pub fn start(
    w: usize,
    h: usize,
    s: u32,
    tolerance: u32,
    percentile: u32,
    held: &mut [i32],
    newest: &mut [u8],
) -> Result<(), Refusal>
    ensures { StartCall least_move_order w h s tolerance percentile
        held.old held.new newest.old newest.new (coded result) }
{
    start_refusal(w, h, s, tolerance, percentile, held.len(), newest.len())?;
    let empty = Bracket {
        w,
        h,
        s,
        tolerance,
        percentile,
        frames: 0,
    };
    put_bracket(held, empty);
    Ok(())
}
