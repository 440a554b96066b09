// The core of the quadrants call: one quadrant of two frames, aligned as a pair.
#![tactic(auto)]

ghost use Rattle.std.specs.Prelude.{◌≡◌, length};
ghost use Rattle.rules.specs.Levels.{arranged};
ghost use Rattle.quadrant_refusals.specs.QuadrantRefusals.{QuadrantsOk};
ghost use Rattle.quadrant.specs.QuadrantPairs.{quadrant_offset};

use align::{MOST_COUNTS, align_frames};
use candidates::Ranking;
use crop::{Quadrant, convert_crop, quadrant_crop};
use popcount::table::BitCounts;
use rules::{Offset, Setup};

// A quadrant's offset, candidates being preferred in the given order. Its counts and compared numbers are
// not told. `setup` is the whole frame's.
pub fn align_quadrant(
    setup: Setup,
    quadrant: Quadrant,
    first: &[u8],
    second: &[u8],
    grey: &mut [u8],
    words: &mut [u64],
    order: &Ranking,
) -> Offset
    requires accepted { QuadrantsOk setup.w setup.h setup.s setup.exclusion setup.percentile
        (length first.now) (length second.now) (length grey.old) (length words.old) }
    ensures { result ≡ quadrant_offset (arranged order.now.places) setup first.now second.now quadrant }
{
    let Setup { w, h, .. } = setup;
    let crop = quadrant_crop(w, h, quadrant);
    let half = Setup {
        w: w / 2,
        h: h / 2,
        ..setup
    };
    let area = half.w * half.h;
    convert_crop(first, w, crop, grey, 0);
    convert_crop(second, w, crop, grey, area);
    let mut counts = [0u32; MOST_COUNTS];
    let mut compared = [0u32; MOST_COUNTS];
    let table = BitCounts::new();
    align_frames(
        grey,
        0,
        area,
        half,
        words,
        &mut counts,
        &mut compared,
        0,
        order,
        &table,
    )
}
