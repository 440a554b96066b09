// What a series call does, refusals included, in any order of the nine.
#![tactic(auto)]

mod aligning;

ghost use Rattle.rules.specs.RefusalNumbers.{coded};
ghost use Rattle.rules.specs.Levels.{arranged};
ghost use Rattle.rules.specs.Calls.{SeriesCall};
ghost use Rattle.series_in_order.specs.Settings.{settings_of};

use align_refusals::series_refusal;
use aligning::align_series;
use candidates::Ranking;
use refusals::exclusion_refusal;
use rules::{Refusal, Setup};

// The offsets of all frames of a series from its reference, and the counts and compared numbers of its
// pairs. Candidates are preferred in the given order. Each pair's percentile takes the place of the setup's.
pub fn series_in_order(
    setup: Setup,
    n: usize,
    r: usize,
    percentiles: &[u32],
    rasters: &[u8],
    offsets: &mut [i32],
    counts: &mut [u32],
    compared: &mut [u32],
    grey: &mut [u8],
    words: &mut [u64],
    order: &Ranking,
) -> Result<(), Refusal>
    ensures { SeriesCall (arranged order.now.places) (settings_of setup n r percentiles.now) rasters.now
        offsets.old offsets.new counts.old counts.new compared.old compared.new
        grey.old grey.new words.old words.new (coded result) }
{
    series_refusal(
        setup.w,
        setup.h,
        setup.s,
        exclusion_refusal(setup.exclusion),
        n,
        r,
        percentiles,
        rasters.len(),
        offsets.len(),
        counts.len(),
        compared.len(),
        grey.len(),
        words.len(),
    )?;
    align_series(
        setup,
        n,
        r,
        percentiles,
        rasters,
        offsets,
        counts,
        compared,
        grey,
        words,
        order,
    );
    Ok(())
}
