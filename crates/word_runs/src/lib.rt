// The differences and the compared pixels of two runs of whole words, with no edge at the ends of rows:
// eight words at a time.
#![tactic(auto)]

ghost use Rattle.std.specs.Prelude.{◌≡◌, ◌+◌, ◌*◌, ◌%◌, ◌<◌, ◌≤◌};
ghost use Rattle.rules.specs.Limits.{word_bits};
ghost use Rattle.rules.specs.Sums.{sum};
ghost use Rattle.popcount.specs.RowCounts.{Adds};
ghost use Rattle.tallies.specs.Tallies.{WordsOf};
ghost use Rattle.word_runs.specs.WordRuns.{run_differ, run_kept, run_tally, RunsIn, CountedTo};

use differing::FramePair;
use popcount::table::BitCounts;
use tallies::{Counters, Words};

// The pixels at which word k of the two runs differs, and those that are compared.
fn run_word(pair: &FramePair<'_>, i: usize, x: usize, len: usize, k: usize) -> Words
    requires here { k < len }
    requires runs { RunsIn pair.now i x len }
    ensures { WordsOf (run_differ pair.now i x)
        (run_kept pair.now i x) k result }
{
    let kept = pair.exclusion1[i + k] & pair.exclusion2[x + k];
    let differing = (pair.threshold1[i + k] ^ pair.threshold2[x + k]) & kept;
    Words { differing, kept }
}

// Eight words more, from k on.
fn run_eight(
    pair: &FramePair<'_>,
    i: usize,
    x: usize,
    len: usize,
    k: usize,
    before: Counters,
    table: &BitCounts,
) -> Counters
    requires here { k + 8 ≤ len }
    requires runs { RunsIn pair.now i x len }
    requires counted { CountedTo pair.now i x k before }
    ensures { CountedTo pair.now i x (k + 8) result }
{
    before.count_eight(
        run_word(pair, i, x, len, k),
        run_word(pair, i, x, len, k + 1),
        run_word(pair, i, x, len, k + 2),
        run_word(pair, i, x, len, k + 3),
        run_word(pair, i, x, len, k + 4),
        run_word(pair, i, x, len, k + 5),
        run_word(pair, i, x, len, k + 6),
        run_word(pair, i, x, len, k + 7),
        table,
    )
}

// The words up to `rest`, eight at a time.
fn run_eights(
    pair: &FramePair<'_>,
    i: usize,
    x: usize,
    len: usize,
    rest: usize,
    table: &BitCounts,
) -> u64
    requires eights { (rest % 8 ≡ 0) × (rest ≤ len) }
    requires runs { RunsIn pair.now i x len }
    ensures { Adds (run_tally pair.now i x) 0 rest result }
{
    let mut counters = Counters::NOTHING;
    for k in (0..rest).step_by(8) {
        counters = run_eight(pair, i, x, len, k, counters, table);
    }
    counters.tally(table)
}

// The words from `rest` on, one by one.
fn run_rest(
    pair: &FramePair<'_>,
    i: usize,
    x: usize,
    len: usize,
    rest: usize,
    table: &BitCounts,
) -> u64
    requires left { rest ≤ len }
    requires runs { RunsIn pair.now i x len }
    ensures { Adds (run_tally pair.now i x) rest len result }
{
    let mut both = 0;
    for k in rest..len {
        both += run_word(pair, i, x, len, k).tally(table);
    }
    both
}

// The first frame's run of `len` words from i on against the second's from x on.
pub fn run_tally(pair: &FramePair<'_>, i: usize, x: usize, len: usize, table: &BitCounts) -> u64
    requires runs { RunsIn pair.now i x len }
    ensures { result ≡ sum (len * word_bits) (run_tally pair.now i x) }
{
    let rest = len - len % 8;
    run_eights(pair, i, x, len, rest, table) + run_rest(pair, i, x, len, rest, table)
}
