// Alignment of a series: the two offered calls, which differ in the order that they lend.
#![tactic(auto)]

ghost use Rattle.rules.specs.RefusalNumbers.{coded};
ghost use Rattle.rules.specs.Levels.{ward_order, least_move_order};
ghost use Rattle.rules.specs.Calls.{tolerance_settings, SeriesCall};

use candidates::places;
use rules::{Exclusion, Order, Refusal, Setup};
use series_in_order::series_in_order;

// The offsets of all frames of a series from its reference, and the counts and compared numbers of its
// pairs. Among equal counts the least move is preferred.
pub fn series(
    w: usize,
    h: usize,
    s: u32,
    tolerance: u32,
    n: usize,
    r: usize,
    percentiles: &[u32],
    rasters: &[u8],
    offsets: &mut [i32],
    counts: &mut [u32],
    compared: &mut [u32],
    grey: &mut [u8],
    words: &mut [u64],
) -> Result<(), Refusal>
    ensures { SeriesCall least_move_order (tolerance_settings w h s tolerance n r percentiles.now) rasters.now
        offsets.old offsets.new counts.old counts.new compared.old compared.new
        grey.old grey.new words.old words.new (coded result) }
{
    let setup = Setup {
        w,
        h,
        s,
        percentile: 0,
        exclusion: Exclusion::Tolerance(tolerance),
    };
    let order = places(Order::LeastMove);
    series_in_order(
        setup,
        n,
        r,
        percentiles,
        rasters,
        offsets,
        counts,
        compared,
        grey,
        words,
        &order,
    )
}

// The same in Ward's order.
pub fn series_ward(
    w: usize,
    h: usize,
    s: u32,
    tolerance: u32,
    n: usize,
    r: usize,
    percentiles: &[u32],
    rasters: &[u8],
    offsets: &mut [i32],
    counts: &mut [u32],
    compared: &mut [u32],
    grey: &mut [u8],
    words: &mut [u64],
) -> Result<(), Refusal>
    ensures { SeriesCall ward_order (tolerance_settings w h s tolerance n r percentiles.now) rasters.now
        offsets.old offsets.new counts.old counts.new compared.old compared.new
        grey.old grey.new words.old words.new (coded result) }
{
    let setup = Setup {
        w,
        h,
        s,
        percentile: 0,
        exclusion: Exclusion::Tolerance(tolerance),
    };
    let order = places(Order::Ward);
    series_in_order(
        setup,
        n,
        r,
        percentiles,
        rasters,
        offsets,
        counts,
        compared,
        grey,
        words,
        &order,
    )
}
