// Functions on the packed words of a row. The laws of bits and moves stand in proofs/.
#![tactic(auto)]

ghost use Rattle.std.specs.Prelude.{◌≡◌, ℕ, ◌+◌, ◌*◌, ◌<◌, ◌≤◌, ltb, length};
ghost use Rattle.rules.specs.Limits.{word_bits};
ghost use Rattle.rules.specs.Sums.{gate};
ghost use Rattle.rules.specs.Bitmaps.{bit, row_words};
ghost use Rattle.words.specs.Rows.{row_bit, back, WordOf, bias_of};

use moves::joined_word;

pub mod moves;

pub const WORD_BITS: usize = 64;

// 2^31: moves are counted from the least signed 32-bit number, so that none is negative.
pub const BIAS: usize = 2147483648;

// 2^31 / 64
pub const BIAS_WORDS: usize = 33554432;

// The words of a row of w pixels. (Written so that no width overflows.)
#[tactic(auto, unfolding(rules::specs::Bitmaps::row_words))]
pub fn row_words(w: usize) -> usize
    ensures { result ≡ row_words w }
{
    w / WORD_BITS + (w % WORD_BITS + 63) / WORD_BITS
}

// The low n bits of a word; the others are 0.
pub fn keep_low(v: u64, n: usize) -> u64
    ensures { (i : ℕ) → bit result i ≡ gate (ltb i n) (bit v i) }
{
    if n < WORD_BITS {
        return v & ((1 << n) - 1);
    }
    v
}

// Word k of the row of w pixels whose words begin at `base`, with its bits past w as 0. Only the last
// word is masked; words past the row are 0.
pub fn row_word(src: &[u64], base: usize, w: usize, k: usize) -> u64
    requires room { base + row_words w ≤ length src.now }
    requires near { k < 4294967296 }
    ensures { WordOf (row_bit src.now base w) k result }
{
    let x = k * WORD_BITS;
    if x + WORD_BITS <= w {
        return src[base + k];
    }
    if x < w {
        return keep_low(src[base + k], w - x);
    }
    0
}

// Word k of the row moved to the right by 64·q + r places. Words of which both parts lie inside w, most
// of a row, are joined with no mask.
pub fn moved_word(src: &[u64], base: usize, w: usize, k: usize, q: usize, r: usize) -> u64
    requires room { base + row_words w ≤ length src.now }
    requires near { k < 4294967296 }
    requires rest { r < word_bits }
    ensures { WordOf (back (row_bit src.now base w) (q * word_bits + r)) k result }
{
    if q < k {
        let j = k - q;
        if j * WORD_BITS + WORD_BITS <= w {
            return joined_word(src[base + j], src[base + (j - 1)], r);
        }
        let high = row_word(src, base, w, j);
        let low = row_word(src, base, w, j - 1);
        return joined_word(high, low, r);
    }
    if q == k {
        return row_word(src, base, w, 0) << r;
    }
    0
}

// A signed move counted from the least one, so that it is never negative.
pub fn biased(d: i32) -> usize
    ensures { result ≡ bias_of d }
{
    (d as i64 + BIAS as i64) as usize
}
