// Both bitmaps of a grey frame.

ghost use Rattle.std.specs.Prelude.{◌≡◌, ◌*◌, ◌≤◌, length};
ghost use Rattle.rules.specs.Bitmaps.{row_words, word_of};
ghost use Rattle.rules.specs.Buffers.{FrameAt};
ghost use Rattle.pack.specs.Outside.{outside_plane};

use crate::packed_rows::pack_row;
use words::row_words;

// A row is packed into both bitmaps while it is in the cache.
pub fn pack_frame(
    w: usize,
    h: usize,
    threshold: u8,
    lo: u8,
    hi: u8,
    grey: &[u8],
    thresholds: &mut [u64],
    exclusions: &mut [u64],
)
    requires { (length grey.now ≡ w * h) × (row_words w * h ≤ length thresholds.old) × (row_words w * h ≤ length exclusions.old) × (lo ≤ hi) }
    ensures frame_at { FrameAt 0 (row_words w) (word_of w (outside_plane 0 threshold w grey.now)) thresholds.old h thresholds.new }
    ensures frame_at_2 { FrameAt 0 (row_words w) (word_of w (outside_plane lo hi w grey.now)) exclusions.old h exclusions.new }
{
    let n = row_words(w);
    for y in 0..h {
        let from = y * w;
        let to = y * n;
        pack_row(grey, from, w, 0, threshold, thresholds, to);
        pack_row(grey, from, w, lo, hi, exclusions, to);
    }
}
