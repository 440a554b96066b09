// The words of a row before and after the interior ones: one general function for all of them, and a
// quick one each for the first and the last word of a row that is moved by less than a word.

ghost use Rattle.std.specs.Prelude.{◌≡◌, ◌+◌, ◌*◌, ◌<◌, ◌≤◌};
ghost use Rattle.rules.specs.Limits.{word_bits};
ghost use Rattle.words.specs.Rows.{bias_words};
ghost use Rattle.popcount.specs.RowCounts.{Adds};
ghost use Rattle.differing.specs.RowDifferences.{moved_tally, RowsIn};

use differing::FramePair;
use popcount::table::BitCounts;
use tallies::Words;
use words::moves::{Move, joined_word};
use words::{BIAS_WORDS, WORD_BITS, moved_word, row_word};

// One word near an edge of a row, where partners can lie outside and bits past w be in the way.
fn edge_word(
    pair: &FramePair<'_>,
    base: usize,
    from: usize,
    m: Move,
    k: usize,
    table: &BitCounts,
) -> u64
    requires here { k < m.n }
    requires rows { RowsIn pair.now base from m.w }
    ensures { Adds (moved_tally pair.now base from m) k (k + 1) result }
{
    let at = k + BIAS_WORDS;
    let exclusion = moved_word(pair.exclusion2, from, m.w, at, m.q, m.r);
    let kept = row_word(pair.exclusion1, base, m.w, k) & exclusion;
    if kept == 0 {
        return 0;
    }
    let threshold = moved_word(pair.threshold2, from, m.w, at, m.q, m.r);
    let differing = (pair.threshold1[base + k] ^ threshold) & kept;
    Words { differing, kept }.tally(table)
}

// The row's first word moved by less than a word to the right: it is full, and no word stands before it.
fn first_word(
    pair: &FramePair<'_>,
    base: usize,
    from: usize,
    m: Move,
    k: usize,
    table: &BitCounts,
) -> u64
    requires here { (m.q ≡ k + bias_words) × ((k + 1) * word_bits ≤ m.w) }
    requires rows { RowsIn pair.now base from m.w }
    ensures { Adds (moved_tally pair.now base from m) k (k + 1) result }
{
    let i = base + k;
    let kept = pair.exclusion1[i] & (pair.exclusion2[from] << m.r);
    let differing = (pair.threshold1[i] ^ (pair.threshold2[from] << m.r)) & kept;
    Words { differing, kept }.tally(table)
}

// The row's last word moved by at most a word to the left: no word stands after it. Partners lie to the
// right, so that a mask on the second frame's word is enough.
fn last_word(
    pair: &FramePair<'_>,
    base: usize,
    from: usize,
    m: Move,
    k: usize,
    table: &BitCounts,
) -> u64
    requires here { (m.q + 1 ≡ bias_words) × (k + 1 ≡ m.n) }
    requires rows { RowsIn pair.now base from m.w }
    ensures { Adds (moved_tally pair.now base from m) k (k + 1) result }
{
    let i = base + k;
    let kept = pair.exclusion1[i] & joined_word(0, row_word(pair.exclusion2, from, m.w, k), m.r);
    let differing = (pair.threshold1[i] ^ joined_word(0, pair.threshold2[from + k], m.r)) & kept;
    Words { differing, kept }.tally(table)
}

// The words of a row from `first` up to `end`, which need not be interior.
fn edge_words(
    pair: &FramePair<'_>,
    base: usize,
    from: usize,
    m: Move,
    first: usize,
    end: usize,
    table: &BitCounts,
) -> u64
    requires span { (first ≤ end) × (end ≤ m.n) }
    requires rows { RowsIn pair.now base from m.w }
    ensures { Adds (moved_tally pair.now base from m) first end result }
{
    let mut both = 0;
    for k in first..end {
        both += edge_word(pair, base, from, m, k, table);
    }
    both
}

// The words before the interior. For most moves that is none, told by one test and no call, or the
// first alone.
pub fn left_edge(pair: &FramePair<'_>, base: usize, from: usize, m: Move, table: &BitCounts) -> u64
    requires rows { RowsIn pair.now base from m.w }
    ensures { Adds (moved_tally pair.now base from m) 0 m.first result }
{
    if m.first == 0 {
        return 0;
    }
    if m.first == 1 && m.q == BIAS_WORDS && WORD_BITS <= m.w {
        return first_word(pair, base, from, m, 0, table);
    }
    edge_words(pair, base, from, m, 0, m.first, table)
}

// The words after the interior, likewise: none, the last alone, or any.
pub fn right_edge(pair: &FramePair<'_>, base: usize, from: usize, m: Move, table: &BitCounts) -> u64
    requires rows { RowsIn pair.now base from m.w }
    ensures { Adds (moved_tally pair.now base from m) m.end m.n result }
{
    if m.end == m.n {
        return 0;
    }
    if m.q == BIAS_WORDS - 1 && m.end + 1 == m.n {
        return last_word(pair, base, from, m, m.end, table);
    }
    edge_words(pair, base, from, m, m.end, m.n, table)
}
