// The live bracket. Each call is a step of the held memory; its number n stands for the answer that the call
// gives: accepted where it is 0, else refused with it.

ghost use Rattle.std.specs.Prelude.{◌≡◌};
ghost use Rattle.rules.specs.Answers.{answer_for, written};
ghost use Rattle.rules.specs.Levels.{least_move_order};
ghost use Rattle.live.specs.LiveCalls.{StartCall, AddCall, DropCall, TellCall};

use c_answers::{refusal_in, value_into};
use live_add::add;
use live_drop::drop_oldest;
use live_start::start;
use live_tell::tell;

#[unsafe(no_mangle)]
pub extern "C" fn mtb_live_start(
    w: u32,
    h: u32,
    s: u32,
    tolerance: u32,
    percentile: u32,
    held: &mut [i32],
    newest: &mut [u8],
) -> u32
    ensures { StartCall least_move_order w h s tolerance percentile
        held.old held.new newest.old newest.new (written result) }
{
    refusal_in(start(
        w as usize, h as usize, s, tolerance, percentile, held, newest,
    ))
}

#[unsafe(no_mangle)]
pub extern "C" fn mtb_live_add(
    held: &mut [i32],
    newest: &mut [u8],
    raster: &[u8],
    grey: &mut [u8],
    words: &mut [u64],
) -> u32
    ensures { AddCall least_move_order raster.now held.old held.new newest.old newest.new
        grey.old grey.new words.old words.new (written result) }
{
    refusal_in(add(held, newest, raster, grey, words))
}

#[unsafe(no_mangle)]
pub extern "C" fn mtb_live_drop(held: &mut [i32], newest: &mut [u8]) -> u32
    ensures { DropCall least_move_order held.old held.new newest.old newest.new (written result) }
{
    refusal_in(drop_oldest(held, newest))
}

#[unsafe(no_mangle)]
pub extern "C" fn mtb_live_offsets(
    held: &[i32],
    newest: &[u8],
    offsets: &mut [i32],
    frames: &mut u32,
) -> u32
    ensures call { TellCall least_move_order held.now newest.now offsets.old offsets.new (answer_for result frames.new) }
    ensures refused { (result ≡ 0 → ⊥) → frames.new ≡ frames.old }
{
    value_into(tell(held, newest, offsets), frames)
}
