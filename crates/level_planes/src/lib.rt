// Both bitmaps of a grey frame that stands in lent memory, into lent words.
#![tactic(auto)]

pub mod exclusion;

ghost use Rattle.std.specs.Prelude.{◌≡◌, ◌+◌, ◌*◌, ◌≤◌, length, drop};
ghost use Rattle.rules.specs.Accepted.{PercentileOk};
ghost use Rattle.rules.specs.Bitmaps.{row_words, word_of};
ghost use Rattle.pack.specs.Outside.{outside_plane};
ghost use Rattle.level_planes.specs.FrameSides.{Sides};
ghost use Rattle.level_planes.specs.LevelPlanes.{BothAt, PackedAt};

use exclusion::excluded;
use histogram::histogram;
use pack::packed_rows::pack_row;
use rules::Setup;
use threshold::walk::threshold_of;
use words::row_words;

// The words of one bitmap.
pub fn bitmap_words(w: usize, h: usize) -> usize
    requires { Sides w h }
    ensures { result ≡ row_words w * h }
{
    row_words(w) * h
}

// A row is packed into both bitmaps while it is in the cache.
fn pack_within(
    grey: &[u8],
    from: usize,
    w: usize,
    h: usize,
    threshold: u8,
    lo: u8,
    hi: u8,
    words: &mut [u64],
    to: usize,
)
    requires sides { Sides w h }
    requires frame { from + w * h ≤ length grey.now }
    requires room { to + 2 * (row_words w * h) ≤ length words.old }
    requires interval { lo ≤ hi }
    ensures { BothAt to (to + row_words w * h) (row_words w)
        (word_of w (outside_plane 0 threshold w (drop from grey.now)))
        (word_of w (outside_plane lo hi w (drop from grey.now)))
        words.old h words.new }
{
    let n = row_words(w);
    let exclusions = to + bitmap_words(w, h);
    for y in 0..h {
        let row = from + y * w;
        pack_row(grey, row, w, 0, threshold, words, to + y * n);
        pack_row(grey, row, w, lo, hi, words, exclusions + y * n);
    }
}

// The bitmaps of the frame at place `from`, as the setup says, from place `to` on. Its grey values are
// counted once for all its thresholds.
pub fn bitmaps_within(grey: &[u8], from: usize, setup: Setup, words: &mut [u64], to: usize)
    requires sides { Sides setup.w setup.h }
    requires percent { PercentileOk setup.exclusion setup.percentile }
    requires frame { from + setup.w * setup.h ≤ length grey.now }
    requires room { to + 2 * (row_words setup.w * setup.h) ≤ length words.old }
    ensures { PackedAt setup (drop from grey.now) to words.old words.new }
{
    let Setup {
        w,
        h,
        percentile,
        exclusion,
        ..
    } = setup;
    let end = from + w * h;
    let counts = histogram(&grey[from..end]);
    let pixels = w * h;
    let threshold = threshold_of(&counts, pixels, percentile);
    let out = excluded(&counts, pixels, percentile, threshold, exclusion);
    pack_within(grey, from, w, h, threshold, out.lo, out.hi, words, to);
}
