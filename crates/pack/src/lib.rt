// Packing of a grey frame into its threshold bitmap and its exclusion bitmap.
#![tactic(auto)]

use frame::pack_frame;
use frame_refusals::bitmaps_refusal;
use interval::{high_end, low_end};
use rules::Refusal;

pub mod frame;
pub mod interval;
pub mod packed_rows;

ghost use Rattle.rules.specs.RefusalNumbers.{coded};
ghost use Rattle.rules.specs.Calls.{BitmapsCall};

// The threshold and the exclusion bitmap of a grey frame for a threshold and a tolerance.
pub fn bitmaps(
    w: usize,
    h: usize,
    threshold: u8,
    tolerance: u32,
    grey: &[u8],
    thresholds: &mut [u64],
    exclusions: &mut [u64],
) -> Result<(), Refusal>
    ensures { BitmapsCall w h threshold tolerance grey.now
        thresholds.old thresholds.new exclusions.old exclusions.new (coded result) }
{
    bitmaps_refusal(
        w,
        h,
        tolerance,
        grey.len(),
        thresholds.len(),
        exclusions.len(),
    )?;
    let lo = low_end(threshold, tolerance);
    let hi = high_end(threshold, tolerance);
    pack_frame(w, h, threshold, lo, hi, grey, thresholds, exclusions);
    Ok(())
}
