// Rows of pixels packed into words, one bit a pixel: 1 where its grey value lies outside lo..hi.

ghost use Rattle.std.specs.Prelude.{◌≡◌, ◌+◌, ◌*◌, ◌≤◌, length};
ghost use Rattle.rules.specs.Bitmaps.{row_words};
ghost use Rattle.rules.specs.Buffers.{RowAt};
ghost use Rattle.flags.specs.Flags.{flag_at, Weighed};
ghost use Rattle.pack.specs.Outside.{outside_word, columns_word};
ghost use Rattle.gather.specs.Gathers.{by_columns};

use flags::{WEIGHTS, flags_of};
use gather::columns::gather_columns;
use gather::turning::turn_row;
use words::{WORD_BITS, row_words};

// The flags of the n pixels from place `at` on as a word by columns.
fn pack_word(grey: &[u8], at: usize, n: usize, lo: u8, hi: u8, weights: &[u8; 64]) -> u64
    requires { (n ≤ 64) × (at + n ≤ length grey.now) × (lo ≤ hi) × Weighed (λ i. 1) weights.now }
    ensures { result ≡ by_columns (flag_at lo hi grey.now at n) }
{
    let flags = flags_of(grey, at, n, lo, hi, weights);
    gather_columns(&flags)
}

// The words of a row of w pixels by columns.
fn pack_columns(grey: &[u8], from: usize, w: usize, lo: u8, hi: u8, out: &mut [u64], to: usize)
    requires { (from + w ≤ length grey.now) × (to + row_words w ≤ length out.old) × (lo ≤ hi) }
    ensures { RowAt to (columns_word lo hi grey.now from w) out.old (row_words w) out.new }
{
    let weights = WEIGHTS;
    let full = w / WORD_BITS;
    let rest = w % WORD_BITS;
    for k in 0..full {
        out[to + k] = pack_word(grey, from + k * WORD_BITS, WORD_BITS, lo, hi, &weights);
    }
    if rest > 0 {
        out[to + full] = pack_word(grey, from + full * WORD_BITS, rest, lo, hi, &weights);
    }
}

// The words of a row of w pixels that begins at place `from`, written from place `to` on.
pub fn pack_row(grey: &[u8], from: usize, w: usize, lo: u8, hi: u8, out: &mut [u64], to: usize)
    requires { (from + w ≤ length grey.now) × (to + row_words w ≤ length out.old) × (lo ≤ hi) }
    ensures { RowAt to (outside_word lo hi grey.now from w) out.old (row_words w) out.new }
{
    pack_columns(grey, from, w, lo, hi, out, to);
    let n = row_words(w);
    turn_row(out, to, n);
}
