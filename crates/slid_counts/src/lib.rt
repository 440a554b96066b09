// The second frame of two slid inside the lent words, and the difference count and compared number
// against it.
#![tactic(auto)]

ghost use Rattle.std.specs.Prelude.{◌≡◌, ◌*◌, ◌≤◌, length};
ghost use Rattle.rules.specs.Limits.{max_candidate};
ghost use Rattle.rules.specs.Bitmaps.{row_words};
ghost use Rattle.rules.specs.Levels.{Near};
ghost use Rattle.level_planes.specs.FrameSides.{Sides};
ghost use Rattle.slid_counts.specs.SlidPlaces.{KeptTo, SlidAt, words_count, words_compared};

use differing::FramePair;
use level_planes::bitmap_words;
use overlap::overlap_frame;
use popcount::table::BitCounts;
use rules::{Offset, Tally};
use slide::slide_within;
use tallies::split;

// The second frame's bitmaps, moved right by dx, into the words after the four.
pub fn slide_second(words: &mut [u64], w: usize, h: usize, dx: i32)
    requires sides { Sides w h }
    requires room { 6 * (row_words w * h) ≤ length words.old }
    ensures kept { KeptTo (4 * (row_words w * h)) words.old words.new }
    ensures slid { SlidAt w h dx words.new }
{
    let n = bitmap_words(w, h);
    slide_within(words, 2 * n, w, h, dx, 4 * n);
    slide_within(words, 3 * n, w, h, dx, 5 * n);
}

// The two numbers at an offset whose dx the second frame has been slid by.
pub fn tally_slid(words: &[u64], w: usize, h: usize, m: Offset, table: &BitCounts) -> Tally
    requires sides { Sides w h }
    requires room { 6 * (row_words w * h) ≤ length words.now }
    requires near { Near max_candidate m }
    requires slid { SlidAt w h m.dx words.now }
    ensures { (result.count ≡ words_count w h words.now m) × (result.compared ≡ words_compared w h words.now m) }
{
    let n = bitmap_words(w, h);
    let pair = FramePair {
        threshold1: words,
        exclusion1: &words[n..],
        threshold2: &words[4 * n..],
        exclusion2: &words[5 * n..],
    };
    split(overlap_frame(w, h, m.dy, &pair, table))
}
