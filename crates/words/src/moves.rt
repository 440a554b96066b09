// A row moved sideways by words and bits, worked out once for all its rows.

ghost use Rattle.std.specs.Prelude.{◌≡◌, ◌+◌, ◌*◌, ◌<◌, ◌≤◌};
ghost use Rattle.rules.specs.Limits.{max_side, word_bits};
ghost use Rattle.words.specs.Moves.{MoveOf, Joined};

use crate::{BIAS_WORDS, WORD_BITS, row_words};
pub use clipped::clipped_word;
use word_distance::{quotient, remainder};

pub mod clipped;

// A move of rows of w pixels, in n words, by q words, counted from the bias, and r bits. A word from
// `first` up to `end` is interior: it is made of two words of the row, all three of them full, and so
// needs no test and no mask. Up to `rest` they go in blocks of seven, for a caller that counts. Every move
// keeps these relations, since `move_by` works them out.
#[derive(Clone, Copy)]
pub struct Move {
    pub w: usize,
    pub n: usize,
    pub q: usize,
    pub r: usize,
    pub first: usize,
    pub rest: usize,
    pub end: usize,
    pub ghost moves: { MoveOf w n q r first rest end },
}

pub fn move_by(w: usize, d: usize) -> Move
    requires width { w ≤ max_side }
    requires near { d < 4294967296 }
    ensures { (result.w ≡ w) × (result.q * word_bits + result.r ≡ d) }
{
    let n = row_words(w);
    let q = quotient(d);
    let r = remainder(d);
    let full = w / WORD_BITS;
    let end = full.min((q + full).max(BIAS_WORDS) - BIAS_WORDS);
    let first = end.min((q + 1).max(BIAS_WORDS) - BIAS_WORDS);
    let rest = end - (end - first) % 7;
    Move {
        w,
        n,
        q,
        r,
        first,
        rest,
        end,
    }
}

// The bits of one word moved up by r, below them the topmost r bits of the word before it. (Two steps
// down, since the machine moves by less than 64.)
pub fn joined_word(high: u64, low: u64, r: usize) -> u64
    requires { r < word_bits }
    ensures { Joined high low r result }
{
    (high << r) | ((low >> 1) >> (63 - r))
}
