// The walk over the counts of the grey values. It serves any percentile from 1 to 99.

ghost use Rattle.std.specs.Prelude.{◌≡◌, List, ℕ, ◌*◌, ◌≤◌};
ghost use Rattle.histogram.specs.Counts.{max_pixels, total, CountsOf};
ghost use Rattle.threshold.specs.Flat.{threshold_in, first_reaching};

// The first value whose running count, a hundred times, reaches the goal.
fn first_reaching(counts: &[u32; 256], goal: u64) -> u8
    requires { (total counts.now ≤ max_pixels) × (goal ≤ 100 * total counts.now) }
    ensures { result ≡ first_reaching goal counts.now }
{
    let mut count: u64 = 0;
    let mut v: u8 = 0;
    let t = loop {
        let k = v as usize;
        count += counts[k] as u64;
        if 100 * count >= goal {
            break v;
        }
        v += 1;
    };
    t
}

// The threshold for a percentile, from the counts of a frame's grey values: one count of a frame serves several percentiles.
pub fn threshold_of(counts: &[u32; 256], pixels: usize, percentile: u32) -> u8
    requires { (total counts.now ≡ pixels) × (pixels ≤ max_pixels) × (percentile ≤ 99) }
    ensures { (l : List ℕ) → CountsOf l counts.now → result ≡ threshold_in percentile l }
{
    let goal = (percentile as u64) * (pixels as u64);
    first_reaching(counts, goal)
}
