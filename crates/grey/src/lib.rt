// Grey conversion of rasters: the offered call.
#![tactic(auto)]

pub mod conversion;

ghost use Rattle.rules.specs.RefusalNumbers.{coded};
ghost use Rattle.rules.specs.Calls.{GreyCall};

use frame_refusals::grey_refusal;
use rules::Refusal;

// Grey conversion of a raster into a lent grey frame.
pub fn to_grey(w: usize, h: usize, raster: &[u8], grey: &mut [u8]) -> Result<(), Refusal>
    ensures { GreyCall w h raster.now grey.old grey.new (coded result) }
{
    grey_refusal(w, h, raster.len(), grey.len())?;
    conversion::convert(raster, w * h, grey, 0);
    Ok(())
}
