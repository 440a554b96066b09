// Frames: grey conversion, halving, threshold.

ghost use Rattle.std.specs.Prelude.{◌≡◌, length};
ghost use Rattle.rules.specs.Refusals.{threshold_refusal};
ghost use Rattle.rules.specs.Answers.{written};
ghost use Rattle.rules.specs.Frames.{frame_of};
ghost use Rattle.rules.specs.Thresholds.{threshold};
ghost use Rattle.rules.specs.Calls.{GreyCall, HalveCall};
ghost use Rattle.c_answers.specs.Values.{value_after};

use c_answers::{refusal_in, value_into};
use grey::to_grey;
use halve::halve;
use threshold::threshold;

#[unsafe(no_mangle)]
pub extern "C" fn mtb_grey(w: u32, h: u32, raster: &[u8], grey: &mut [u8]) -> u32
    ensures { GreyCall w h raster.now grey.old grey.new (written result) }
{
    refusal_in(to_grey(w as usize, h as usize, raster, grey))
}

#[unsafe(no_mangle)]
pub extern "C" fn mtb_halve(w: u32, h: u32, grey: &[u8], out: &mut [u8]) -> u32
    ensures { HalveCall w h grey.now out.old out.new (written result) }
{
    refusal_in(halve(w as usize, h as usize, grey, out))
}

#[unsafe(no_mangle)]
pub extern "C" fn mtb_threshold(w: u32, h: u32, percentile: u32, grey: &[u8], value: &mut u8) -> u32
    ensures answer { result ≡ threshold_refusal w h percentile (length grey.now) }
    ensures value { value.new ≡ value_after result (threshold w h percentile (frame_of w grey.now)) value.old }
{
    value_into(threshold(w as usize, h as usize, percentile, grey), value)
}
