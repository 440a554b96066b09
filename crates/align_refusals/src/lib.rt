// When the pair and the series call are refused, worked out from sizes, settings and lengths alone; of
// the percentiles the values too.
#![tactic(auto)]

ghost use Rattle.std.specs.Prelude.{◌≡◌, ◌<◌};
ghost use Rattle.rules.specs.RefusalNumbers.{numbered};
ghost use Rattle.rules.specs.Refusals.{bad_percentiles, pair_refusal, series_refusal};

use refusals::{Faults, bad_frames, bad_percentile, lowest};
use rules::Numbered;
use work_memory::{shape_refusal, short_memory};

// There are not n - 1 percentiles, or one is none of the three.
fn bad_percentiles(n: usize, percentiles: &[u32]) -> bool
    requires { 0 < n }
    ensures { result ≡ bad_percentiles n percentiles.now }
{
    percentiles.len() != n - 1 || percentiles.iter().any(|p| bad_percentile(*p))
}

#[tactic(auto, unfolding(rules::specs::Refusals::pair_refusal, rules::specs::Refusals::bad_halvings))]
pub fn pair_refusal<E: Numbered>(
    w: usize,
    h: usize,
    s: u32,
    excluded: Result<(), E>,
    percentile: u32,
    first: usize,
    second: usize,
    counts: usize,
    compared: usize,
    grey: usize,
    words: usize,
) -> Result<(), E>
    ensures { numbered E.number result ≡ pair_refusal w h s (numbered E.number excluded) percentile first second counts compared grey words }
{
    shape_refusal(w, h, s)?;
    let raster = 3 * (w * h);
    let pair = 9 * (s as usize + 1);
    lowest(Faults {
        small: false,
        excluded,
        frames: false,
        reference: false,
        percentile: bad_percentile(percentile),
        length: (first != raster) | (second != raster),
        room: (counts < pair) | (compared < pair),
        memory: short_memory(w, h, s, grey, words),
        offset: false,
        row: false,
    })
}

#[tactic(auto, unfolding(rules::specs::Refusals::series_refusal, rules::specs::Refusals::bad_halvings, rules::specs::Refusals::bad_frames, rules::specs::Refusals::bad_reference))]
pub fn series_refusal<E: Numbered>(
    w: usize,
    h: usize,
    s: u32,
    excluded: Result<(), E>,
    n: usize,
    r: usize,
    percentiles: &[u32],
    rasters: usize,
    offsets: usize,
    counts: usize,
    compared: usize,
    grey: usize,
    words: usize,
) -> Result<(), E>
    ensures { numbered E.number result ≡ series_refusal w h s (numbered E.number excluded) n r percentiles.now rasters offsets counts compared grey words }
{
    shape_refusal(w, h, s)?;
    let faults = Faults {
        small: false,
        excluded,
        frames: bad_frames(n),
        reference: n <= r,
        percentile: false,
        length: false,
        room: false,
        memory: false,
        offset: false,
        row: false,
    };
    // The other tests work with the number of frames.
    if faults.frames || faults.reference {
        return lowest(faults);
    }
    let raster = 3 * (w * h);
    let all = n * raster;
    let pair = 9 * (s as usize + 1);
    let pairs = pair * (n - 1);
    let sums = 2 * n;
    lowest(Faults {
        percentile: bad_percentiles(n, percentiles),
        length: rasters != all,
        room: (offsets < sums) | ((counts < pairs) | (compared < pairs)),
        memory: short_memory(w, h, s, grey, words),
        ..faults
    })
}
