// When the live bracket's calls are refused, worked out before anything is written. 16 stands before
// all others but the length of the held numbers, since the other tests work with what these say.
#![tactic(auto)]

ghost use Rattle.std.specs.Prelude.{◌≡◌, ◌||◌, ◌*◌, eqb, length};
ghost use Rattle.rules.specs.Limits.{max_frames};
ghost use Rattle.rules.specs.RefusalNumbers.{number_in};
ghost use Rattle.rules.specs.Refusals.{◌when◌, ◌or_else◌, wrong_length, short, raster_length, grey_length, short_memory};
ghost use Rattle.live.specs.Held.{held_length, bracket_of};
ghost use Rattle.live.specs.HeldOk.{BracketOk};
ghost use Rattle.live.specs.Steps.{bad_held, start_number, add_number, drop_number, tell_number};

use held_numbers::{bad_held, bracket_of};
use live::Bracket;
use refusals::{Faults, MAX_FRAMES, NONE, bad_percentile, lowest, tolerance_refusal};
use rules::Refusal;
use work_memory::{shape_refusal, short_memory};

// The numbers of the held memory.
const HELD: usize = 36;

pub fn start_refusal(
    w: usize,
    h: usize,
    s: u32,
    tolerance: u32,
    percentile: u32,
    held: usize,
    newest: usize,
) -> Result<(), Refusal>
    ensures { number_in result ≡ start_number w h s tolerance percentile held newest }
{
    shape_refusal(w, h, s)?;
    let area = w * h;
    lowest(Faults {
        excluded: tolerance_refusal(tolerance),
        percentile: bad_percentile(percentile),
        length: (held != HELD) | (newest != area),
        ..NONE
    })
}

// 9 for the held numbers, and 16 for what they say.
fn held_refusal(held: &[i32]) -> Result<(), Refusal>
    ensures { number_in result ≡ 9 when wrong_length held_length (length held.now) or_else 16 when bad_held held.now }
{
    if held.len() != HELD {
        return Err(Refusal::Length);
    }
    if bad_held(held) {
        return Err(Refusal::Held);
    }
    Ok(())
}

// What is left to test of an add, a drop and a tell once the held numbers keep their limits.
fn add_rest(
    b: Bracket,
    newest: usize,
    raster: usize,
    grey: usize,
    words: usize,
) -> Result<(), Refusal>
    requires { BracketOk b }
    ensures { number_in result ≡ 6 when eqb b.frames max_frames
        or_else 9 when (wrong_length (grey_length b.w b.h) newest || wrong_length (raster_length b.w b.h) raster)
        or_else 11 when short_memory b.s b.w b.h grey words }
{
    let area = b.w * b.h;
    let rgb = 3 * area;
    lowest(Faults {
        frames: b.frames == MAX_FRAMES,
        length: (newest != area) | (raster != rgb),
        memory: short_memory(b.w, b.h, b.s, grey, words),
        ..NONE
    })
}

fn drop_rest(b: Bracket, newest: usize) -> Result<(), Refusal>
    requires { BracketOk b }
    ensures { number_in result ≡ 16 when eqb b.frames 0 or_else 9 when wrong_length (grey_length b.w b.h) newest }
{
    let area = b.w * b.h;
    if b.frames == 0 {
        return Err(Refusal::Held);
    }
    lowest(Faults {
        length: newest != area,
        ..NONE
    })
}

fn tell_rest(b: Bracket, newest: usize, offsets: usize) -> Result<(), Refusal>
    requires { BracketOk b }
    ensures { number_in result ≡ 9 when wrong_length (grey_length b.w b.h) newest or_else 10 when short (2 * b.frames) offsets }
{
    let area = b.w * b.h;
    let numbers = 2 * b.frames;
    lowest(Faults {
        length: newest != area,
        room: offsets < numbers,
        ..NONE
    })
}

pub fn add_refusal(
    held: &[i32],
    newest: usize,
    raster: usize,
    grey: usize,
    words: usize,
) -> Result<(), Refusal>
    ensures { number_in result ≡ add_number (bad_held held.now) (bracket_of held.now) (length held.now) newest raster grey words }
{
    held_refusal(held)?;
    add_rest(bracket_of(held), newest, raster, grey, words)
}

pub fn drop_refusal(held: &[i32], newest: usize) -> Result<(), Refusal>
    ensures { number_in result ≡ drop_number (bad_held held.now) (bracket_of held.now) (length held.now) newest }
{
    held_refusal(held)?;
    drop_rest(bracket_of(held), newest)
}

pub fn tell_refusal(held: &[i32], newest: usize, offsets: usize) -> Result<(), Refusal>
    ensures { number_in result ≡ tell_number (bad_held held.now) (bracket_of held.now) (length held.now) newest offsets }
{
    held_refusal(held)?;
    tell_rest(bracket_of(held), newest, offsets)
}
