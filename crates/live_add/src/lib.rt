// The live bracket: a frame is added at its end.
#![tactic(auto)]

ghost use Rattle.std.specs.Prelude.{◌≡◌, false, length};
ghost use Rattle.rules.specs.RefusalNumbers.{coded};
ghost use Rattle.rules.specs.Levels.{least_move_order};
ghost use Rattle.live.specs.Held.{memory_of, bracket_of};
ghost use Rattle.live.specs.HeldOk.{BracketOk, AddOk};
ghost use Rattle.live.specs.Steps.{grown};
ghost use Rattle.live.specs.LiveCalls.{AddCall};

use candidates::places;
use held_numbers::bracket_of;
use held_writes::{put_bracket, put_pair};
use live::Bracket;
use live_refusals::add_refusal;
use newest_frame::{align_newest, replace_newest};
use rules::{Exclusion, Order, Refusal, Setup};

// The memory with one frame more. The first frame makes no pair; each other one is aligned with the newest,
// and nothing else is.
fn grow(held: &mut [i32], newest: &mut [u8], raster: &[u8], grey: &mut [u8], words: &mut [u64])
    requires limits { BracketOk (bracket_of held.old) }
    requires accepted { AddOk false (bracket_of held.old) (length held.old) (length newest.old) (length raster.now) (length grey.old) (length words.old) }
    ensures { memory_of held.new newest.new ≡ grown least_move_order raster.now (memory_of held.old newest.old) }
{
    let bracket = bracket_of(held);
    let frames = bracket.frames;
    let more = Bracket {
        frames: frames + 1,
        ..bracket
    };
    if frames == 0 {
        replace_newest(bracket.w, bracket.h, raster, newest);
        put_bracket(held, more);
        return;
    }
    let setup = Setup {
        w: bracket.w,
        h: bracket.h,
        s: bracket.s,
        percentile: bracket.percentile,
        exclusion: Exclusion::Tolerance(bracket.tolerance),
    };
    let order = places(Order::LeastMove);
    let m = align_newest(setup, newest, raster, grey, words, &order);
    put_pair(held, frames - 1, m);
    put_bracket(held, more);
}

// Adds a frame to a live bracket, and aligns it with the newest one where a frame is held.
pub fn add(
    held: &mut [i32],
    newest: &mut [u8],
    raster: &[u8],
    grey: &mut [u8],
    words: &mut [u64],
) -> Result<(), Refusal>
    ensures { AddCall least_move_order raster.now held.old held.new newest.old newest.new
        grey.old grey.new words.old words.new (coded result) }
{
    add_refusal(held, newest.len(), raster.len(), grey.len(), words.len())?;
    grow(held, newest, raster, grey, words);
    Ok(())
}
