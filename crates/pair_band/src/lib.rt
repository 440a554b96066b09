// Alignment of a pair of rasters with a noise band by rank in place of the tolerance.
#![tactic(auto)]

ghost use Rattle.rules.specs.RefusalNumbers.{coded};
ghost use Rattle.rules.specs.Levels.{least_move_order};
ghost use Rattle.rules.specs.Calls.{band_setup, PairCall};

use candidates::places;
use pair_in_order::pair_in_order;
use rules::{Exclusion, Offset, Order, Refusal, Setup};

// The offset that moves the second frame onto the first, and the counts and compared numbers of every
// level, as `pair` gives them. A level leaves out the grey values from the threshold for percentile - band to
// that for percentile + band.
pub fn pair_band(
    w: usize,
    h: usize,
    s: u32,
    band: u32,
    percentile: u32,
    first: &[u8],
    second: &[u8],
    counts: &mut [u32],
    compared: &mut [u32],
    grey: &mut [u8],
    words: &mut [u64],
) -> Result<Offset, Refusal>
    ensures { PairCall least_move_order (band_setup w h s band percentile) first.now second.now
        counts.old counts.new compared.old compared.new
        grey.old grey.new words.old words.new (coded result) }
{
    let setup = Setup {
        w,
        h,
        s,
        percentile,
        exclusion: Exclusion::Band(band),
    };
    let order = places(Order::LeastMove);
    pair_in_order(setup, first, second, counts, compared, grey, words, &order)
}
