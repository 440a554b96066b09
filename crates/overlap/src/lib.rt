// The difference count and the compared number of two frames that are moved against each other by whole
// rows only: one run of words of the first against one of the second.
#![tactic(auto)]

ghost use Rattle.std.specs.Prelude.{◌≡◌, ◌+◌, ◌*◌, ◌≤◌, pos};
ghost use Rattle.rules.specs.Limits.{max_side};
ghost use Rattle.rules.specs.Differences.{difference, compared};
ghost use Rattle.tallies.specs.Tallies.{tally};
ghost use Rattle.differing.specs.RowDifferences.{FramesIn, first_planes, second_planes};
ghost use Rattle.word_runs.specs.WordRuns.{Clean};

use differing::FramePair;
use popcount::table::BitCounts;
use word_runs::run_tally;
use words::{BIAS, biased, row_words};

// Both in one number, of two frames of w by h pixels. The rows that have a partner begin at row `top` of
// the first frame and at row `from` of the second, of which one is row 0. The second exclusion bitmap has
// no 1 past w, so that bits past w add nothing.
pub fn overlap_frame(w: usize, h: usize, dy: i32, pair: &FramePair<'_>, table: &BitCounts) -> u64
    requires width { w ≤ max_side }
    requires height { h ≤ max_side }
    requires frames { FramesIn pair.now w h }
    requires clean { Clean w h pair.now.exclusion2.now }
    ensures { result ≡ tally (difference w h (pos 0) dy (first_planes w h pair.now) (second_planes w h pair.now))
        (compared w h (pos 0) dy (first_planes w h pair.now) (second_planes w h pair.now)) }
{
    let up = biased(dy);
    let most = up.max(BIAS);
    let top = most - BIAS;
    let from = most - up;
    if h <= top + from {
        return 0;
    }
    let n = row_words(w);
    let rows = h - (top + from);
    run_tally(pair, top * n, from * n, rows * n, table)
}
