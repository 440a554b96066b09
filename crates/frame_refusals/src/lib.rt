// When each call on frames and bitmaps is refused.
#![tactic(auto)]

ghost use Rattle.std.specs.Prelude.{◌≡◌};
ghost use Rattle.rules.specs.RefusalNumbers.{number_in};
ghost use Rattle.rules.specs.Refusals.{grey_refusal, halve_refusal, threshold_refusal, bitmaps_refusal, shift_refusal, total_refusal, difference_refusal};

use refusals::{Faults, NONE, bad_percentile, lowest, size_refusal, tolerance_refusal};
use rules::Refusal;
use words::row_words;

#[tactic(auto, unfolding(rules::specs::Refusals::grey_refusal))]
pub fn grey_refusal(w: usize, h: usize, raster: usize, grey: usize) -> Result<(), Refusal>
    ensures { number_in result ≡ grey_refusal w h raster grey }
{
    size_refusal(w, h)?;
    let area = w * h;
    let bytes = 3 * area;
    lowest(Faults {
        length: raster != bytes,
        room: grey < area,
        ..NONE
    })
}

#[tactic(auto, unfolding(rules::specs::Refusals::halve_refusal, rules::specs::Refusals::unhalvable))]
pub fn halve_refusal(w: usize, h: usize, grey: usize, out: usize) -> Result<(), Refusal>
    ensures { number_in result ≡ halve_refusal w h grey out }
{
    size_refusal(w, h)?;
    let area = w * h;
    let quarter = w / 2 * (h / 2);
    lowest(Faults {
        small: w < 2 || h < 2,
        length: grey != area,
        room: out < quarter,
        ..NONE
    })
}

#[tactic(auto, unfolding(rules::specs::Refusals::threshold_refusal))]
pub fn threshold_refusal(w: usize, h: usize, percentile: u32, grey: usize) -> Result<(), Refusal>
    ensures { number_in result ≡ threshold_refusal w h percentile grey }
{
    size_refusal(w, h)?;
    let area = w * h;
    lowest(Faults {
        percentile: bad_percentile(percentile),
        length: grey != area,
        ..NONE
    })
}

#[tactic(auto, unfolding(rules::specs::Refusals::bitmaps_refusal))]
pub fn bitmaps_refusal(
    w: usize,
    h: usize,
    tolerance: u32,
    grey: usize,
    thresholds: usize,
    exclusions: usize,
) -> Result<(), Refusal>
    ensures { number_in result ≡ bitmaps_refusal w h tolerance grey thresholds exclusions }
{
    size_refusal(w, h)?;
    let area = w * h;
    let words = row_words(w) * h;
    lowest(Faults {
        excluded: tolerance_refusal(tolerance),
        length: grey != area,
        room: thresholds < words || exclusions < words,
        ..NONE
    })
}

#[tactic(auto, unfolding(rules::specs::Refusals::shift_refusal))]
pub fn shift_refusal(w: usize, h: usize, bitmap: usize, out: usize) -> Result<(), Refusal>
    ensures { number_in result ≡ shift_refusal w h bitmap out }
{
    size_refusal(w, h)?;
    let words = row_words(w) * h;
    lowest(Faults {
        length: bitmap != words,
        room: out < words,
        ..NONE
    })
}

#[tactic(auto, unfolding(rules::specs::Refusals::total_refusal))]
pub fn total_refusal(w: usize, h: usize, bitmap: usize) -> Result<(), Refusal>
    ensures { number_in result ≡ total_refusal w h bitmap }
{
    size_refusal(w, h)?;
    let words = row_words(w) * h;
    lowest(Faults {
        length: bitmap != words,
        ..NONE
    })
}

#[tactic(auto, unfolding(rules::specs::Refusals::difference_refusal))]
pub fn difference_refusal(
    w: usize,
    h: usize,
    threshold1: usize,
    exclusion1: usize,
    threshold2: usize,
    exclusion2: usize,
) -> Result<(), Refusal>
    ensures { number_in result ≡ difference_refusal w h threshold1 exclusion1 threshold2 exclusion2 }
{
    size_refusal(w, h)?;
    let words = row_words(w) * h;
    lowest(Faults {
        length: threshold1 != words
            || exclusion1 != words
            || threshold2 != words
            || exclusion2 != words,
        ..NONE
    })
}
