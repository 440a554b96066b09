// The blink row (document 01's term): one row of one of two rasters, for a display that shows them in turn. The offered calls.
#![tactic(auto)]

ghost use Rattle.rules.specs.RefusalNumbers.{number_in, coded};
ghost use Rattle.std.specs.Prelude.{◌≡◌};
ghost use Rattle.blink.specs.Blink.{blink_refusal, blink_answer, BlinkCall};

use refusals::{Faults, NONE, lowest, size_refusal};
use rules::Refusal;

#[tactic(auto, unfolding(crate::specs::Blink::blink_refusal))]
fn blink_refusal(w: usize, h: usize, y: usize, first: usize, second: usize) -> Result<(), Refusal>
    ensures { number_in result ≡ blink_refusal w h y first second }
{
    size_refusal(w, h)?;
    let bytes = 3 * (w * h);
    lowest(Faults {
        length: (first != bytes) | (second != bytes),
        row: h <= y,
        ..NONE
    })
}

// The companion of the blink row: where it begins in the chosen raster, or why it is refused.
pub fn blink_start(
    w: usize,
    h: usize,
    y: usize,
    first: &[u8],
    second: &[u8],
) -> Result<usize, Refusal>
    ensures { coded result ≡ blink_answer w h y first.now second.now }
{
    blink_refusal(w, h, y, first.len(), second.len())?;
    Ok(y * (3 * w))
}

// Row y of the second raster where `other` is set, else of the first; an empty part when refused.
pub fn blink_row<'a>(
    w: usize,
    h: usize,
    y: usize,
    other: bool,
    first: &'a [u8],
    second: &'a [u8],
) -> &'a [u8]
    ensures { BlinkCall w h y other first.now first.entry.ref_ptr second.now second.entry.ref_ptr result.now result.ref_ptr }
{
    let Ok(from) = blink_start(w, h, y, first, second) else {
        return &first[..0];
    };
    let to = from + 3 * w;
    if other {
        &second[from..to]
    } else {
        &first[from..to]
    }
}
