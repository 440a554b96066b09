// Where a packed row of one frame and a moved row of another differ, and where both are kept.
#![tactic(auto)]

ghost use Rattle.std.specs.Prelude.{◌<◌, ◌≤◌};
ghost use Rattle.tallies.specs.Tallies.{WordsOf};
ghost use Rattle.differing.specs.RowDifferences.{moved_differ, moved_kept, RowsIn};

use tallies::Words;
use words::BIAS_WORDS;
use words::moves::{Move, joined_word};

// The lent bitmaps of two frames, packed into words: where each frame is above its threshold, and which of
// its pixels count.
#[derive(Clone, Copy)]
pub struct FramePair<'a> {
    pub threshold1: &'a [u64],
    pub exclusion1: &'a [u64],
    pub threshold2: &'a [u64],
    pub exclusion2: &'a [u64],
}

// The pixels of interior word k at which the two rows differ, and those that are compared.
pub fn differing_word(pair: &FramePair<'_>, base: usize, from: usize, m: Move, k: usize) -> Words
    requires here { (m.first ≤ k) × (k < m.end) }
    requires rows { RowsIn pair.now base from m.w }
    ensures { WordsOf (moved_differ pair.now base from m) (moved_kept pair.now base from m) k result }
{
    let i = base + k;
    let j = from + k + BIAS_WORDS - m.q;
    let threshold = joined_word(pair.threshold2[j], pair.threshold2[j - 1], m.r);
    let exclusion = joined_word(pair.exclusion2[j], pair.exclusion2[j - 1], m.r);
    let kept = pair.exclusion1[i] & exclusion;
    let differing = (pair.threshold1[i] ^ threshold) & kept;
    Words { differing, kept }
}
