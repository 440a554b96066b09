// The field rotation warning: the four quadrants of a pair, each aligned by itself. The offered call.
#![tactic(auto)]

ghost use Rattle.rules.specs.RefusalNumbers.{coded};
ghost use Rattle.rules.specs.Levels.{least_move_order};
ghost use Rattle.rules.specs.Calls.{tolerance_setup};
ghost use Rattle.quadrants.specs.QuadrantsCalls.{QuadrantsCall};

use candidates::places;
use four_quadrants::align_quadrants;
use quadrant_refusals::quadrants_refusal;
use refusals::tolerance_refusal;
use rules::{Exclusion, Order, Refusal, Setup};

// The offsets of the four quadrants, and whether they tell of a turn. Among equal counts the least move is
// preferred.
pub fn quadrants(
    w: usize,
    h: usize,
    s: u32,
    tolerance: u32,
    percentile: u32,
    first: &[u8],
    second: &[u8],
    offsets: &mut [i32],
    grey: &mut [u8],
    words: &mut [u64],
) -> Result<bool, Refusal>
    ensures { QuadrantsCall least_move_order (tolerance_setup w h s tolerance percentile) first.now second.now
        offsets.old offsets.new grey.old grey.new words.old words.new (coded result) }
{
    let setup = Setup {
        w,
        h,
        s,
        percentile,
        exclusion: Exclusion::Tolerance(tolerance),
    };
    quadrants_refusal(
        w,
        h,
        s,
        tolerance_refusal(tolerance),
        percentile,
        first.len(),
        second.len(),
        offsets.len(),
        grey.len(),
        words.len(),
    )?;
    let order = places(Order::LeastMove);
    let turned = align_quadrants(setup, first, second, offsets, grey, words, &order);
    Ok(turned)
}
