// One level of the alignment of two grey frames that stand in lent memory.
#![tactic(auto)]

ghost use Rattle.std.specs.Prelude.{◌+◌, ◌*◌, ◌≤◌, length, drop};
ghost use Rattle.rules.specs.Limits.{max_centre};
ghost use Rattle.rules.specs.Frames.{frame_of};
ghost use Rattle.rules.specs.Accepted.{PercentileOk};
ghost use Rattle.rules.specs.Bitmaps.{row_words};
ghost use Rattle.rules.specs.Levels.{arranged, Near};
ghost use Rattle.level_planes.specs.FrameSides.{Sides};
ghost use Rattle.level.specs.Choices.{count_by, compared_by, LevelAligned};

use candidates::{Ranking, candidate};
use level_counts::nine_counts;
use level_planes::{bitmap_words, bitmaps_within};
use popcount::table::BitCounts;
use rules::{Offset, Setup};

// The level of the frames that begin at places `first` and `second`: its nine counts and compared
// numbers from place `at` on, and its offset, the first with the least count in the given order. The
// table of bit counts and the order are taken once by the caller.
pub fn align_level(
    grey: &[u8],
    first: usize,
    second: usize,
    setup: Setup,
    words: &mut [u64],
    centre: Offset,
    counts: &mut [u32],
    compared: &mut [u32],
    at: usize,
    order: &Ranking,
    table: &BitCounts,
) -> Offset
    requires sides { Sides setup.w setup.h }
    requires percent { PercentileOk setup.exclusion setup.percentile }
    requires frames { (first + setup.w * setup.h ≤ length grey.now) × (second + setup.w * setup.h ≤ length grey.now) }
    requires room { 6 * (row_words setup.w * setup.h) ≤ length words.old }
    requires near { Near max_centre centre }
    requires nine { (at + 9 ≤ length counts.old) × (at + 9 ≤ length compared.old) }
    ensures { LevelAligned (arranged order.now.places)
        (count_by setup (frame_of setup.w (drop first grey.now)) (frame_of setup.w (drop second grey.now)))
        (compared_by setup (frame_of setup.w (drop first grey.now)) (frame_of setup.w (drop second grey.now)))
        centre at counts.old counts.new compared.old compared.new result }
{
    let n = bitmap_words(setup.w, setup.h);
    bitmaps_within(grey, first, setup, words, 0);
    bitmaps_within(grey, second, setup, words, 2 * n);
    nine_counts(words, setup.w, setup.h, centre, counts, compared, at, table);
    let rank = order.first_least(counts, at);
    let place = order.places[rank];
    candidate(centre, place)
}
