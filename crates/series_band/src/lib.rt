// Alignment of a series with a noise band by rank in place of the tolerance.
#![tactic(auto)]

ghost use Rattle.rules.specs.RefusalNumbers.{coded};
ghost use Rattle.rules.specs.Levels.{least_move_order};
ghost use Rattle.rules.specs.Calls.{band_settings, SeriesCall};

use candidates::places;
use rules::{Exclusion, Order, Refusal, Setup};
use series_in_order::series_in_order;

// The offsets of all frames of a series from its reference, and the counts and compared numbers of its
// pairs, as `series` gives them. A level leaves out the grey values from the threshold for its pair's
// percentile - band to that for percentile + band.
pub fn series_band(
    w: usize,
    h: usize,
    s: u32,
    band: u32,
    n: usize,
    r: usize,
    percentiles: &[u32],
    rasters: &[u8],
    offsets: &mut [i32],
    counts: &mut [u32],
    compared: &mut [u32],
    grey: &mut [u8],
    words: &mut [u64],
) -> Result<(), Refusal>
    ensures { SeriesCall least_move_order (band_settings w h s band n r percentiles.now) rasters.now
        offsets.old offsets.new counts.old counts.new compared.old compared.new
        grey.old grey.new words.old words.new (coded result) }
{
    let setup = Setup {
        w,
        h,
        s,
        percentile: 0,
        exclusion: Exclusion::Band(band),
    };
    let order = places(Order::LeastMove);
    series_in_order(
        setup,
        n,
        r,
        percentiles,
        rasters,
        offsets,
        counts,
        compared,
        grey,
        words,
        &order,
    )
}
