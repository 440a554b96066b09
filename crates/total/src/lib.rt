// The number of 1 bits of a lent bitmap.
#![tactic(auto)]

pub mod row_totals;

ghost use Rattle.rules.specs.RefusalNumbers.{coded};
ghost use Rattle.std.specs.Prelude.{◌≡◌};
ghost use Rattle.rules.specs.Calls.{total_answer};

use frame_refusals::total_refusal;
use popcount::table::BitCounts;
use row_totals::total_frame;
use rules::Refusal;

// The number of 1 bits of a lent bitmap; bits past w do not count.
pub fn total(w: usize, h: usize, bitmap: &[u64]) -> Result<u32, Refusal>
    ensures { coded result ≡ total_answer w h bitmap.now }
{
    total_refusal(w, h, bitmap.len())?;
    let table = BitCounts::new();
    Ok(total_frame(w, h, bitmap, &table))
}
