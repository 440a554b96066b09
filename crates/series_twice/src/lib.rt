// Demand 3 as a contract: a series call, made for a series and for another one.
#![tactic(auto)]

ghost use Rattle.rules.specs.RefusalNumbers.{coded};
ghost use Rattle.rules.specs.Levels.{order_of};
ghost use Rattle.rules.specs.Calls.{tolerance_settings, SeriesCall};
ghost use Rattle.series_twice.specs.Kinds.{order_by, settings_by};
ghost use Rattle.series_twice.specs.Demand.{packed_answer, Given, Demanded};

use rules::{Order, Refusal};
use series::{series, series_ward};
use series_band::series_band;

// A series call, by its order and tolerance, or by its band.
#[derive(Clone, Copy)]
pub enum Kind {
    Tolerance(Order, u32),
    Band(u32),
}

// The answers of two series calls.
#[derive(Clone, Copy)]
pub struct Answers {
    pub first: Result<(), Refusal>,
    pub second: Result<(), Refusal>,
}

// The series call of an order, by a tolerance.
fn series_in(
    order: Order,
    w: usize,
    h: usize,
    s: u32,
    tolerance: u32,
    n: usize,
    r: usize,
    percentiles: &[u32],
    rasters: &[u8],
    offsets: &mut [i32],
    counts: &mut [u32],
    compared: &mut [u32],
    grey: &mut [u8],
    words: &mut [u64],
) -> Result<(), Refusal>
    ensures { SeriesCall (order_of order) (tolerance_settings w h s tolerance n r percentiles.now) rasters.now
        offsets.old offsets.new counts.old counts.new compared.old compared.new
        grey.old grey.new words.old words.new (coded result) }
{
    match order {
        Order::LeastMove => series(
            w,
            h,
            s,
            tolerance,
            n,
            r,
            percentiles,
            rasters,
            offsets,
            counts,
            compared,
            grey,
            words,
        ),
        Order::Ward => series_ward(
            w,
            h,
            s,
            tolerance,
            n,
            r,
            percentiles,
            rasters,
            offsets,
            counts,
            compared,
            grey,
            words,
        ),
    }
}

// The series call of a kind.
fn series_by(
    kind: Kind,
    w: usize,
    h: usize,
    s: u32,
    n: usize,
    r: usize,
    percentiles: &[u32],
    rasters: &[u8],
    offsets: &mut [i32],
    counts: &mut [u32],
    compared: &mut [u32],
    grey: &mut [u8],
    words: &mut [u64],
) -> Result<(), Refusal>
    ensures { SeriesCall (order_by kind) (settings_by kind w h s n r percentiles.now) rasters.now
        offsets.old offsets.new counts.old counts.new compared.old compared.new
        grey.old grey.new words.old words.new (coded result) }
{
    match kind {
        Kind::Tolerance(order, tolerance) => series_in(
            order,
            w,
            h,
            s,
            tolerance,
            n,
            r,
            percentiles,
            rasters,
            offsets,
            counts,
            compared,
            grey,
            words,
        ),
        Kind::Band(band) => series_band(
            w,
            h,
            s,
            band,
            n,
            r,
            percentiles,
            rasters,
            offsets,
            counts,
            compared,
            grey,
            words,
        ),
    }
}

// Aligns two series of the same sizes and settings by the same call, each in buffers of its own. No board
// needs it: its contract is each call's own and, proved from both and from the theorem of `reexposure`,
// what demand 3 says of every two such calls.
pub fn align_twice(
    kind: Kind,
    w: usize,
    h: usize,
    s: u32,
    n: usize,
    r: usize,
    percentiles: &[u32],
    rasters1: &[u8],
    rasters2: &[u8],
    offsets1: &mut [i32],
    offsets2: &mut [i32],
    counts1: &mut [u32],
    counts2: &mut [u32],
    compared1: &mut [u32],
    compared2: &mut [u32],
    grey1: &mut [u8],
    grey2: &mut [u8],
    words1: &mut [u64],
    words2: &mut [u64],
) -> Answers
    ensures first { SeriesCall (order_by kind) (settings_by kind w h s n r percentiles.now) rasters1.now
        offsets1.old offsets1.new counts1.old counts1.new compared1.old compared1.new
        grey1.old grey1.new words1.old words1.new (coded result.first) }
    ensures second { SeriesCall (order_by kind) (settings_by kind w h s n r percentiles.now) rasters2.now
        offsets2.old offsets2.new counts2.old counts2.new compared2.old compared2.new
        grey2.old grey2.new words2.old words2.new (coded result.second) }
    ensures demand { Given (settings_by kind w h s n r percentiles.now) rasters1.now rasters2.now
        offsets1.old offsets2.old counts1.old counts2.old compared1.old compared2.old
        grey1.old grey2.old words1.old words2.old
        → Demanded (order_by kind) (settings_by kind w h s n r percentiles.now) rasters2.now (coded result.second)
        (packed_answer (settings_by kind w h s n r percentiles.now) offsets1.new counts1.new compared1.new)
        (packed_answer (settings_by kind w h s n r percentiles.now) offsets2.new counts2.new compared2.new) }
{
    let first = series_by(
        kind,
        w,
        h,
        s,
        n,
        r,
        percentiles,
        rasters1,
        offsets1,
        counts1,
        compared1,
        grey1,
        words1,
    );
    let second = series_by(
        kind,
        w,
        h,
        s,
        n,
        r,
        percentiles,
        rasters2,
        offsets2,
        counts2,
        compared2,
        grey2,
        words2,
    );
    Answers { first, second }
}
