// What a pair call does, refusals included, in any order of the nine.
#![tactic(auto)]

mod rasters;

ghost use Rattle.rules.specs.RefusalNumbers.{coded};
ghost use Rattle.rules.specs.Levels.{arranged};
ghost use Rattle.rules.specs.Calls.{PairCall};

use align_refusals::pair_refusal;
use candidates::Ranking;
use rasters::align_rasters;
use refusals::exclusion_refusal;
use rules::{Offset, Refusal, Setup};

// The offset that moves the second frame onto the first, and the counts and compared numbers of every
// level. Candidates are preferred in the given order.
pub fn pair_in_order(
    setup: Setup,
    first: &[u8],
    second: &[u8],
    counts: &mut [u32],
    compared: &mut [u32],
    grey: &mut [u8],
    words: &mut [u64],
    order: &Ranking,
) -> Result<Offset, Refusal>
    ensures { PairCall (arranged order.now.places) setup first.now second.now
        counts.old counts.new compared.old compared.new
        grey.old grey.new words.old words.new (coded result) }
{
    pair_refusal(
        setup.w,
        setup.h,
        setup.s,
        exclusion_refusal(setup.exclusion),
        setup.percentile,
        first.len(),
        second.len(),
        counts.len(),
        compared.len(),
        grey.len(),
        words.len(),
    )?;
    Ok(align_rasters(setup, first, second, counts, compared, grey, words, order))
}
