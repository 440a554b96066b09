// The difference count and the compared number of two frames' packed bitmaps in one number, row by row.
// The second frame's rows are moved word by word on reading.

ghost use Rattle.std.specs.Prelude.{◌≡◌, ◌+◌, ◌*◌, ◌<◌, ◌≤◌};
ghost use Rattle.rules.specs.Limits.{max_side, word_bits};
ghost use Rattle.rules.specs.Sums.{sum};
ghost use Rattle.rules.specs.Differences.{difference, compared};
ghost use Rattle.tallies.specs.Tallies.{tally};
ghost use Rattle.differing.specs.RowDifferences.{moved_tally, pair_line, first_planes, second_planes, RowsIn, FramesIn};

use crate::edges::{left_edge, right_edge};
use crate::interior::interior;
use differing::FramePair;
use popcount::table::BitCounts;
use words::moves::{Move, move_by};
use words::{BIAS, biased};

// The row at `base` against the moved row at `from`.
fn row_tally(pair: &FramePair<'_>, base: usize, from: usize, m: Move, table: &BitCounts) -> u64
    requires rows { RowsIn pair.now base from m.w }
    ensures { result ≡ sum m.w (moved_tally pair.now base from m) }
{
    left_edge(pair, base, from, m, table)
        + interior(pair, base, from, m, table)
        + right_edge(pair, base, from, m, table)
}

// Row y of the frame. Its partner row is `up` rows back, counted from the bias; a row whose partner
// lies outside the frame is not compared.
fn line_tally(
    pair: &FramePair<'_>,
    h: usize,
    y: usize,
    up: usize,
    m: Move,
    table: &BitCounts,
) -> u64
    requires here { (y < h) × (h ≤ max_side) }
    requires frames { FramesIn pair.now m.w h }
    ensures { result ≡ pair_line pair.now m.w h (m.q * word_bits + m.r) up y }
{
    let at = y + BIAS;
    if at < up {
        return 0;
    }
    let z = at - up;
    if h <= z {
        return 0;
    }
    row_tally(pair, y * m.n, z * m.n, m, table)
}

// Of two frames of w by h pixels. The table of counts is lent, so that a caller that counts often takes
// it once.
pub fn tally_frame(
    w: usize,
    h: usize,
    dx: i32,
    dy: i32,
    pair: &FramePair<'_>,
    table: &BitCounts,
) -> u64
    requires width { w ≤ max_side }
    requires height { h ≤ max_side }
    requires frames { FramesIn pair.now w h }
    ensures { result ≡ tally (difference w h dx dy (first_planes w h pair.now) (second_planes w h pair.now))
        (compared w h dx dy (first_planes w h pair.now) (second_planes w h pair.now)) }
{
    let m = move_by(w, biased(dx));
    let up = biased(dy);
    let mut both = 0;
    for y in 0..h {
        both += line_tally(pair, h, y, up, m, table);
    }
    both
}
