// Intervals of grey values near a threshold: by a tolerance, in grey steps, and by a band, in percentiles.
#![tactic(auto)]

ghost use Rattle.std.specs.Prelude.{◌≡◌, List, ℕ, ◌+◌, ◌-◌, ◌≤◌, ◌<◌, min};
ghost use Rattle.histogram.specs.Counts.{max_pixels, total, CountsOf};
ghost use Rattle.threshold.specs.Flat.{threshold_in};

use pack::interval::{high_end, low_end};
use threshold::walk::threshold_of;

// Grey values from lo to hi, both included.
#[derive(Clone, Copy)]
pub struct Interval {
    pub lo: u8,
    pub hi: u8,
}

// Those at most a tolerance away from the threshold.
pub fn around(threshold: u8, tolerance: u32) -> Interval
    ensures { (result.lo ≡ threshold - tolerance) × (result.hi ≡ min 255 (threshold + tolerance)) }
{
    Interval {
        lo: low_end(threshold, tolerance),
        hi: high_end(threshold, tolerance),
    }
}

// Those between the thresholds for the percentiles that lie a band below and above.
pub fn between(counts: &[u32; 256], pixels: usize, percentile: u32, band: u32) -> Interval
    requires counted { (total counts.now ≡ pixels) × (pixels ≤ max_pixels) }
    requires percentiles { (band < percentile) × (percentile + band ≤ 99) }
    ensures lo { (l : List ℕ) → CountsOf l counts.now → result.lo ≡ threshold_in (percentile - band) l }
    ensures hi { (l : List ℕ) → CountsOf l counts.now → result.hi ≡ threshold_in (percentile + band) l }
{
    let lo = threshold_of(counts, pixels, percentile - band);
    let hi = threshold_of(counts, pixels, percentile + band);
    Interval { lo, hi }
}
