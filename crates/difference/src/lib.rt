// The difference count and the compared number of two frames' four lent bitmaps.
#![tactic(auto)]

pub mod edges;
pub mod interior;
pub mod row_differences;

ghost use Rattle.rules.specs.RefusalNumbers.{coded};
ghost use Rattle.std.specs.Prelude.{◌≡◌};
ghost use Rattle.rules.specs.Calls.{difference_answer};

use differing::FramePair;
use frame_refusals::difference_refusal;
use popcount::table::BitCounts;
use row_differences::tally_frame;
use rules::{Refusal, Tally};
use tallies::split;

// Both, of two frames of w by h pixels, at any two signed numbers.
pub fn difference(
    w: usize,
    h: usize,
    dx: i32,
    dy: i32,
    threshold1: &[u64],
    exclusion1: &[u64],
    threshold2: &[u64],
    exclusion2: &[u64],
) -> Result<Tally, Refusal>
    ensures { coded result ≡ difference_answer w h dx dy threshold1.now exclusion1.now threshold2.now exclusion2.now }
{
    difference_refusal(
        w,
        h,
        threshold1.len(),
        exclusion1.len(),
        threshold2.len(),
        exclusion2.len(),
    )?;
    let pair = FramePair {
        threshold1,
        exclusion1,
        threshold2,
        exclusion2,
    };
    let table = BitCounts::new();
    let both = tally_frame(w, h, dx, dy, &pair, &table);
    Ok(split(both))
}
