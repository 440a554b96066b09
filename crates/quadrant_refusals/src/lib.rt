// When the quadrants call is refused, worked out from sizes, settings and lengths alone.
#![tactic(auto)]

ghost use Rattle.std.specs.Prelude.{◌≡◌};
ghost use Rattle.rules.specs.RefusalNumbers.{numbered};
ghost use Rattle.quadrant_refusals.specs.QuadrantRefusals.{quadrants_refusal};

use refusals::{Faults, MAX_HALVINGS, bad_percentile, lowest, size_refusal};
use rules::{Numbered, Refusal};
use work_memory::{short_memory, too_small};

// The numbers that the call writes: an offset for each quadrant.
const NUMBERS: usize = 8;

#[tactic(auto, unfolding(crate::specs::QuadrantRefusals::quadrants_refusal, rules::specs::Refusals::bad_halvings))]
pub fn quadrants_refusal<E: Numbered>(
    w: usize,
    h: usize,
    s: u32,
    excluded: Result<(), E>,
    percentile: u32,
    first: usize,
    second: usize,
    offsets: usize,
    grey: usize,
    words: usize,
) -> Result<(), E>
    ensures { numbered E.number result ≡ quadrants_refusal w h s (numbered E.number excluded) percentile first second offsets grey words }
{
    size_refusal(w, h)?;
    if MAX_HALVINGS < s {
        return Err(Refusal::Halvings.into());
    }
    let raster = 3 * (w * h);
    let half_w = w / 2;
    let half_h = h / 2;
    lowest(Faults {
        small: too_small(half_w, half_h, s),
        excluded,
        frames: false,
        reference: false,
        percentile: bad_percentile(percentile),
        length: (first != raster) | (second != raster),
        room: offsets < NUMBERS,
        memory: short_memory(half_w, half_h, s, grey, words),
        offset: false,
        row: false,
    })
}
