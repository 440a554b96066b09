// The interior words of a row, which are most of it: no test and no mask, and seven of them at a time.

ghost use Rattle.std.specs.Prelude.{◌+◌, ◌<◌, ◌≤◌};
ghost use Rattle.popcount.specs.RowCounts.{Adds};
ghost use Rattle.differing.specs.RowDifferences.{moved_tally, RowsIn};

use differing::{FramePair, differing_word};
use popcount::table::BitCounts;
use tallies::seven_word_tally;
use words::moves::Move;

// One interior word. A word of which no pixel is compared is left before the look-ups.
fn interior_word(
    pair: &FramePair<'_>,
    base: usize,
    from: usize,
    m: Move,
    k: usize,
    table: &BitCounts,
) -> u64
    requires here { (m.first ≤ k) × (k < m.end) }
    requires rows { RowsIn pair.now base from m.w }
    ensures { Adds (moved_tally pair.now base from m) k (k + 1) result }
{
    let v = differing_word(pair, base, from, m, k);
    if v.kept == 0 {
        return 0;
    }
    v.tally(table)
}

// Seven interior words, from k on.
fn interior_block(
    pair: &FramePair<'_>,
    base: usize,
    from: usize,
    m: Move,
    k: usize,
    table: &BitCounts,
) -> u64
    requires here { (m.first ≤ k) × (k + 7 ≤ m.end) }
    requires rows { RowsIn pair.now base from m.w }
    ensures { Adds (moved_tally pair.now base from m) k (k + 7) result }
{
    seven_word_tally(
        differing_word(pair, base, from, m, k),
        differing_word(pair, base, from, m, k + 1),
        differing_word(pair, base, from, m, k + 2),
        differing_word(pair, base, from, m, k + 3),
        differing_word(pair, base, from, m, k + 4),
        differing_word(pair, base, from, m, k + 5),
        differing_word(pair, base, from, m, k + 6),
        table,
    )
}

// A row's interior words up to `rest`.
fn interior_blocks(
    pair: &FramePair<'_>,
    base: usize,
    from: usize,
    m: Move,
    table: &BitCounts,
) -> u64
    requires rows { RowsIn pair.now base from m.w }
    ensures { Adds (moved_tally pair.now base from m) m.first m.rest result }
{
    let mut both = 0;
    for k in (m.first..m.rest).step_by(7) {
        both += interior_block(pair, base, from, m, k, table);
    }
    both
}

// The fewer than seven that are left.
fn interior_rest(pair: &FramePair<'_>, base: usize, from: usize, m: Move, table: &BitCounts) -> u64
    requires rows { RowsIn pair.now base from m.w }
    ensures { Adds (moved_tally pair.now base from m) m.rest m.end result }
{
    let mut both = 0;
    for k in m.rest..m.end {
        both += interior_word(pair, base, from, m, k, table);
    }
    both
}

// All of a row's interior words.
pub fn interior(pair: &FramePair<'_>, base: usize, from: usize, m: Move, table: &BitCounts) -> u64
    requires rows { RowsIn pair.now base from m.w }
    ensures { Adds (moved_tally pair.now base from m) m.first m.end result }
{
    interior_blocks(pair, base, from, m, table) + interior_rest(pair, base, from, m, table)
}
