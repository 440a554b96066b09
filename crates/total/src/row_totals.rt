// The 1 bits of a bitmap.

ghost use Rattle.std.specs.Prelude.{◌≡◌, ◌+◌, ◌*◌, ◌<◌, ◌≤◌, length};
ghost use Rattle.rules.specs.Limits.{max_side, word_bits};
ghost use Rattle.rules.specs.Sums.{sum};
ghost use Rattle.rules.specs.Bitmaps.{bit_at, row_words};
ghost use Rattle.rules.specs.Planes.{total};
ghost use Rattle.words.specs.Rows.{row_bit};

use popcount::table::BitCounts;
use words::{WORD_BITS, keep_low, row_words};

// Of the row at `base`: its full words up to `last` as they are, then the lowest `rest` bits of the
// last one.
fn row_total(last: usize, rest: usize, base: usize, bitmap: &[u64], table: &BitCounts) -> u32
    requires row { (last * word_bits < max_side) × ((1 ≤ rest) × (rest ≤ word_bits)) }
    requires room { base + last < length bitmap.now }
    ensures { result ≡ sum (last * word_bits + rest) (row_bit bitmap.now base (last * word_bits + rest)) }
{
    let mut count = 0;
    for word in &bitmap[base..base + last] {
        count += table.word_count(*word);
    }
    count + table.word_count(keep_low(bitmap[base + last], rest))
}

// Of a bitmap of w by h pixels.
pub fn total_frame(w: usize, h: usize, bitmap: &[u64], table: &BitCounts) -> u32
    requires width { (0 < w) × (w ≤ max_side) }
    requires height { h ≤ max_side }
    requires room { row_words w * h ≤ length bitmap.now }
    ensures { result ≡ total w h (bit_at w h bitmap.now) }
{
    let n = row_words(w);
    let last = n - 1;
    let rest = w - last * WORD_BITS;
    let mut count = 0;
    for y in 0..h {
        count += row_total(last, rest, y * n, bitmap, table);
    }
    count
}
