// The live bracket: its oldest frame is dropped.
#![tactic(auto)]

ghost use Rattle.std.specs.Prelude.{◌≡◌, [], ◌<◌, length};
ghost use Rattle.rules.specs.RefusalNumbers.{coded};
ghost use Rattle.rules.specs.Levels.{least_move_order};
ghost use Rattle.live.specs.Held.{memory_of, held_length, bracket_of};
ghost use Rattle.live.specs.HeldOk.{BracketOk};
ghost use Rattle.live.specs.Steps.{shrunk};
ghost use Rattle.live.specs.LiveCalls.{DropCall};

use held_numbers::bracket_of;
use held_writes::{drop_pair, put_bracket};
use live::{Bracket, pairs_in};
use live_refusals::drop_refusal;
use rules::Refusal;

// The numbers without the oldest frame and its pair.
fn shrink(held: &mut [i32])
    requires held_len { length held.old ≡ held_length }
    requires bracket_ok { BracketOk (bracket_of held.old) × (0 < (bracket_of held.old).frames) }
    ensures { held.new ≡ (shrunk (memory_of held.old [])).numbers }
{
    let bracket = bracket_of(held);
    let left = Bracket {
        frames: bracket.frames - 1,
        ..bracket
    };
    let pairs = pairs_in(left.frames);
    drop_pair(held, pairs);
    put_bracket(held, left);
}

// Drops the oldest frame of a live bracket. Nothing is aligned again.
pub fn drop_oldest(held: &mut [i32], newest: &mut [u8]) -> Result<(), Refusal>
    ensures { DropCall least_move_order held.old held.new newest.old newest.new (coded result) }
{
    drop_refusal(held, newest.len())?;
    shrink(held);
    Ok(())
}
