// The words of a row as a move leaves them.

ghost use Rattle.std.specs.Prelude.{◌≡◌, ◌+◌, ◌<◌, ◌≤◌, length};
ghost use Rattle.words.specs.MovedRows.{moved_row};

use super::Move;
use crate::{BIAS_WORDS, WORD_BITS, keep_low, moved_word};

// Word k of the moved row, with its bits past w as 0.
pub fn clipped_word(words: &[u64], from: usize, m: Move, k: usize) -> u64
    requires here { k < m.n }
    requires row { from + m.n ≤ length words.now }
    ensures { result ≡ moved_row words.now from m k }
{
    let v = moved_word(words, from, m.w, k + BIAS_WORDS, m.q, m.r);
    keep_low(v, m.w - k * WORD_BITS)
}
