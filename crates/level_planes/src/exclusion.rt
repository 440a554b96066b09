// The grey values that a level leaves out. This is the one place that knows the rules of exclusion.

ghost use Rattle.std.specs.Prelude.{◌≡◌, List, ℕ, ◌≤◌};
ghost use Rattle.rules.specs.Accepted.{PercentileOk};
ghost use Rattle.histogram.specs.Counts.{max_pixels, total, CountsOf};
ghost use Rattle.threshold.specs.Flat.{threshold_in};
ghost use Rattle.level_planes.specs.Excluded.{Excludes};

use intervals::{Interval, around, between};
use rules::Exclusion;

// What a level leaves out that has these counts of its grey values, and this threshold for the pair's
// percentile.
pub fn excluded(
    counts: &[u32; 256],
    pixels: usize,
    percentile: u32,
    threshold: u8,
    exclusion: Exclusion,
) -> Interval
    requires counted { (total counts.now ≡ pixels) × (pixels ≤ max_pixels) }
    requires percentiles { PercentileOk exclusion percentile }
    ensures { (l : List ℕ) → CountsOf l counts.now → threshold ≡ threshold_in percentile l
        → Excludes exclusion (λ p. threshold_in p l) percentile result.lo result.hi }
{
    match exclusion {
        Exclusion::Tolerance(tolerance) => around(threshold, tolerance),
        Exclusion::Band(band) => between(counts, pixels, percentile, band),
    }
}
