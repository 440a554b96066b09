// The difference counts and compared numbers of a level at the nine candidates, of two frames whose bitmaps
// stand one after the other in lent words.
#![tactic(auto)]

ghost use Rattle.std.specs.Prelude.{◌+◌, ◌*◌, ◌≤◌, ◌<◌, length};
ghost use Rattle.rules.specs.Limits.{max_centre};
ghost use Rattle.rules.specs.Bitmaps.{row_words};
ghost use Rattle.rules.specs.Buffers.{RowAt};
ghost use Rattle.rules.specs.Levels.{candidate_at, Near};
ghost use Rattle.level_planes.specs.FrameSides.{Sides};
ghost use Rattle.level_counts.specs.NineCounts.{nine_of, column_of};
ghost use Rattle.slid_counts.specs.SlidPlaces.{SlidAt, words_count, words_compared};

use candidates::candidate;
use popcount::table::BitCounts;
use rules::Offset;
use slid_counts::{slide_second, tally_slid};

// The counts and compared numbers at the three candidates of column i, written from place `at` on.
fn three_counts(
    words: &[u64],
    w: usize,
    h: usize,
    centre: Offset,
    i: usize,
    counts: &mut [u32],
    compared: &mut [u32],
    at: usize,
    table: &BitCounts,
)
    requires sides { Sides w h }
    requires room { 6 * (row_words w * h) ≤ length words.now }
    requires near { Near max_centre centre }
    requires column { i < 3 }
    requires slid { SlidAt w h (candidate_at centre (3 * i)).dx words.now }
    requires three { (at + 3 ≤ length counts.old) × (at + 3 ≤ length compared.old) }
    ensures counts { RowAt at (column_of (words_count w h words.now) centre i) counts.old 3 counts.new }
    ensures compared { RowAt at (column_of (words_compared w h words.now) centre i) compared.old 3 compared.new }
{
    for j in 0..3 {
        let m = candidate(centre, 3 * i + j);
        let tally = tally_slid(words, w, h, m, table);
        counts[at + j] = tally.count;
        compared[at + j] = tally.compared;
    }
}

// The counts and compared numbers at the nine candidates around a centre, written from place `at` on. The
// second frame is slid once for the three candidates of a column, and then needs to be moved by whole
// rows only.
pub fn nine_counts(
    words: &mut [u64],
    w: usize,
    h: usize,
    centre: Offset,
    counts: &mut [u32],
    compared: &mut [u32],
    at: usize,
    table: &BitCounts,
)
    requires sides { Sides w h }
    requires room { 6 * (row_words w * h) ≤ length words.old }
    requires near { Near max_centre centre }
    requires nine { (at + 9 ≤ length counts.old) × (at + 9 ≤ length compared.old) }
    ensures counts { RowAt at (nine_of (words_count w h words.old) centre) counts.old 9 counts.new }
    ensures compared { RowAt at (nine_of (words_compared w h words.old) centre) compared.old 9 compared.new }
{
    for i in 0..3 {
        let m = candidate(centre, 3 * i);
        slide_second(words, w, h, m.dx);
        three_counts(words, w, h, centre, i, counts, compared, at + 3 * i, table);
    }
}
