// The offered call for the threshold of a grey frame.
#![tactic(auto)]

pub mod walk;

ghost use Rattle.rules.specs.RefusalNumbers.{coded};
ghost use Rattle.std.specs.Prelude.{◌≡◌};
ghost use Rattle.rules.specs.Calls.{threshold_answer};

use frame_refusals::threshold_refusal;
use histogram::histogram;
use rules::Refusal;
use walk::threshold_of;

// The threshold of a grey frame for a percentile of 17, 50 or 83.
pub fn threshold(w: usize, h: usize, percentile: u32, grey: &[u8]) -> Result<u8, Refusal>
    ensures { coded result ≡ threshold_answer w h percentile grey.now }
{
    threshold_refusal(w, h, percentile, grey.len())?;
    let counts = histogram(grey);
    Ok(threshold_of(&counts, grey.len(), percentile))
}
