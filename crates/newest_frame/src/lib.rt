// The newest frame of a live bracket: a new one takes its place, and is aligned with it.
#![tactic(auto)]

ghost use Rattle.std.specs.Prelude.{◌≡◌, ◌*◌, ◌≤◌, length};
ghost use Rattle.rules.specs.Levels.{arranged};
ghost use Rattle.newest_frame.specs.NewestFrames.{NewestOk, Replaced, FramesPut, NewestAligned};

use align::{MOST_COUNTS, align_frames};
use candidates::Ranking;
use grey::conversion::convert;
use popcount::table::BitCounts;
use rules::{Offset, Setup};

// The grey of a raster of w by h in the place of the newest frame's.
pub fn replace_newest(w: usize, h: usize, raster: &[u8], newest: &mut [u8])
    requires raster_len { (length raster.now ≡ 3 * (w * h)) × (length newest.old ≡ w * h) }
    requires h_bound { w * h ≤ 16777216 }
    ensures { Replaced w h raster.now newest.new }
{
    convert(raster, w * h, newest, 0);
}

// Both frames' grey in the work memory, the newest one's first; the new one is the newest then. Each is
// copied, and the raster converted once.
fn put_frames(w: usize, h: usize, newest: &mut [u8], raster: &[u8], grey: &mut [u8])
    requires raster_len { (length raster.now ≡ 3 * (w * h)) × (length newest.old ≡ w * h) }
    requires h_bound { (w * h ≤ 16777216) × (2 * (w * h) ≤ length grey.old) }
    ensures { FramesPut w h newest.old newest.new raster.now (length grey.old) grey.new }
{
    let area = w * h;
    grey[..area].copy_from_slice(newest);
    replace_newest(w, h, raster, newest);
    grey[area..2 * area].copy_from_slice(newest);
}

// The offset of the newest frame and a new one, which then is the newest. Candidates are preferred in the
// given order; counts and compared numbers are not told.
pub fn align_newest(
    setup: Setup,
    newest: &mut [u8],
    raster: &[u8],
    grey: &mut [u8],
    words: &mut [u64],
    order: &Ranking,
) -> Offset
    requires accepted { NewestOk setup (length newest.old) (length raster.now) (length grey.old) (length words.old) }
    ensures { NewestAligned (arranged order.now.places) setup newest.old newest.new raster.now result }
{
    put_frames(setup.w, setup.h, newest, raster, grey);
    let mut counts = [0u32; MOST_COUNTS];
    let mut compared = [0u32; MOST_COUNTS];
    let table = BitCounts::new();
    align_frames(
        grey,
        0,
        setup.w * setup.h,
        setup,
        words,
        &mut counts,
        &mut compared,
        0,
        order,
        &table,
    )
}
