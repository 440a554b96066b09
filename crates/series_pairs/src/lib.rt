// The pairs of a series, one after another.
#![tactic(auto)]

ghost use Rattle.std.specs.Prelude.{length};
ghost use Rattle.rules.specs.Levels.{arranged};
ghost use Rattle.next_pair.specs.PairRuns.{pairs_of, PairsOk, AllRan};

use candidates::Ranking;
use grey::conversion::convert;
use next_pair::align_next;
use popcount::table::BitCounts;
use rules::Setup;

// Aligns each frame with the next one; each pair has its own percentile in the setup's place.
pub fn align_pairs(
    setup: Setup,
    n: usize,
    percentiles: &[u32],
    rasters: &[u8],
    pairs: &mut [i32],
    counts: &mut [u32],
    compared: &mut [u32],
    grey: &mut [u8],
    words: &mut [u64],
    order: &Ranking,
)
    requires accepted { PairsOk setup n percentiles.now (length rasters.now) (length pairs.old) (length counts.old) (length compared.old) (length grey.old) (length words.old) }
    ensures { AllRan n (pairs_of (arranged order.now.places) setup percentiles.now rasters.now)
        pairs.old pairs.new counts.old counts.new compared.old compared.new }
{
    convert(rasters, setup.w * setup.h, grey, 0);
    let table = BitCounts::new();
    for k in 0..n - 1 {
        let own = Setup {
            percentile: percentiles[k],
            ..setup
        };
        align_next(
            own, k, rasters, pairs, counts, compared, grey, words, order, &table,
        );
    }
}
