// Alignment of a pair of rasters: the two offered calls, which differ in the order that they lend.
#![tactic(auto)]

ghost use Rattle.rules.specs.RefusalNumbers.{coded};
ghost use Rattle.rules.specs.Levels.{ward_order, least_move_order};
ghost use Rattle.rules.specs.Calls.{tolerance_setup, PairCall};

use candidates::places;
use pair_in_order::pair_in_order;
use rules::{Exclusion, Offset, Order, Refusal, Setup};

// The offset that moves the second frame onto the first, and the counts and compared numbers of every
// level. Among equal counts the least move is preferred.
pub fn pair(
    w: usize,
    h: usize,
    s: u32,
    tolerance: u32,
    percentile: u32,
    first: &[u8],
    second: &[u8],
    counts: &mut [u32],
    compared: &mut [u32],
    grey: &mut [u8],
    words: &mut [u64],
) -> Result<Offset, Refusal>
    ensures { PairCall least_move_order (tolerance_setup w h s tolerance percentile) first.now second.now
        counts.old counts.new compared.old compared.new
        grey.old grey.new words.old words.new (coded result) }
{
    let setup = Setup {
        w,
        h,
        s,
        percentile,
        exclusion: Exclusion::Tolerance(tolerance),
    };
    let order = places(Order::LeastMove);
    pair_in_order(setup, first, second, counts, compared, grey, words, &order)
}

// The same in Ward's order.
pub fn pair_ward(
    w: usize,
    h: usize,
    s: u32,
    tolerance: u32,
    percentile: u32,
    first: &[u8],
    second: &[u8],
    counts: &mut [u32],
    compared: &mut [u32],
    grey: &mut [u8],
    words: &mut [u64],
) -> Result<Offset, Refusal>
    ensures { PairCall ward_order (tolerance_setup w h s tolerance percentile) first.now second.now
        counts.old counts.new compared.old compared.new
        grey.old grey.new words.old words.new (coded result) }
{
    let setup = Setup {
        w,
        h,
        s,
        percentile,
        exclusion: Exclusion::Tolerance(tolerance),
    };
    let order = places(Order::Ward);
    pair_in_order(setup, first, second, counts, compared, grey, words, &order)
}
