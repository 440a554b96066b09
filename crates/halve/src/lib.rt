// Halving of grey frames: the offered call.
#![tactic(auto)]

pub mod halving;

ghost use Rattle.rules.specs.RefusalNumbers.{coded};
ghost use Rattle.rules.specs.Calls.{HalveCall};

use frame_refusals::halve_refusal;
use rules::Refusal;

// Halving of a grey frame into a lent one.
pub fn halve(w: usize, h: usize, grey: &[u8], out: &mut [u8]) -> Result<(), Refusal>
    ensures { HalveCall w h grey.now out.old out.new (coded result) }
{
    halve_refusal(w, h, grey.len(), out.len())?;
    halving::halve_frame(grey, w, h, out);
    Ok(())
}
