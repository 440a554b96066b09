// The numbers of a live bracket's memory, read: what they say, and whether they break a limit.
#![tactic(auto)]

ghost use Rattle.std.specs.Prelude.{◌≡◌, ◌+◌, ◌*◌, ◌≤◌, ◌<◌, ltb, nat_abs, length};
ghost use Rattle.live.specs.Held.{held_length, pair_place, natural, bracket_of, held_pair};
ghost use Rattle.live.specs.Steps.{some_far, bad_bracket, bad_held};

use live::{Bracket, pairs_in};
use refusals::{MAX_FRAMES, MAX_TOLERANCE, bad_percentile};
use work_memory::shape_refusal;

// The numbers before those of the pairs.
pub const PAIRS: usize = 6;

// What a number below 0 counts as: it is beyond every limit.
const BEYOND: u32 = 65536;

fn natural(x: i32) -> u32
    ensures { result ≡ natural x }
{
    u32::try_from(x).unwrap_or(BEYOND)
}

// Size, settings and number of frames.
pub fn bracket_of(held: &[i32]) -> Bracket
    requires { held_length ≤ length held.now }
    ensures { result ≡ bracket_of held.now }
{
    let w = natural(held[0]) as usize;
    let h = natural(held[1]) as usize;
    let s = natural(held[2]);
    let tolerance = natural(held[3]);
    let percentile = natural(held[4]);
    let frames = natural(held[5]) as usize;
    Bracket {
        w,
        h,
        s,
        tolerance,
        percentile,
        frames,
    }
}

// A number is in size above the bound.
fn far(x: i32, bound: u32) -> bool
    ensures { result ≡ ltb bound (nat_abs x) }
{
    bound < x.unsigned_abs()
}

// One of the first n pairs has an offset that is in size above the bound on an axis.
fn some_far(held: &[i32], bound: u32, n: usize) -> bool
    requires n_bound { (n < 16) × (pair_place + 2 * n ≤ length held.now) }
    ensures { result ≡ some_far bound (held_pair held.now) n }
{
    held[PAIRS..PAIRS + 2 * n].iter().any(|x| far(*x, bound))
}

// Size, settings or number of frames break a limit.
fn bad_bracket(b: Bracket) -> bool
    ensures { result ≡ bad_bracket b }
{
    if shape_refusal(b.w, b.h, b.s).is_err() {
        return true;
    }
    (MAX_TOLERANCE < b.tolerance) | (bad_percentile(b.percentile) | (MAX_FRAMES < b.frames))
}

// 16: what the numbers say, or a pair's offset in use, breaks a limit.
pub fn bad_held(held: &[i32]) -> bool
    requires { held_length ≤ length held.now }
    ensures { result ≡ bad_held held.now }
{
    let b = bracket_of(held);
    if bad_bracket(b) {
        return true;
    }
    let s = b.s;
    let frames = b.frames;
    let bound = (2u32 << s) - 1;
    some_far(held, bound, pairs_in(frames))
}
