// The sizes and halvings that an alignment takes, and the work memory that it needs for them.
#![tactic(auto)]

ghost use Rattle.std.specs.Prelude.{◌≡◌, ◌<◌, ◌≤◌, OnOk};
ghost use Rattle.rules.specs.Accepted.{SizeOk};
ghost use Rattle.rules.specs.Limits.{max_side, max_halvings};
ghost use Rattle.rules.specs.RefusalNumbers.{number_in};
ghost use Rattle.rules.specs.Refusals.{too_small, shape_refusal, level_pixels, grey_needed, words_needed, short_memory};

use refusals::{Faults, MAX_HALVINGS, NONE, lowest, size_refusal};
use rules::Refusal;
use words::row_words;

// The pixels of all levels of a frame.
fn level_pixels(w: usize, h: usize, s: u32) -> usize
    requires { (w ≤ max_side) × (h ≤ max_side) × (s ≤ max_halvings) }
    ensures { result ≡ level_pixels s w h }
{
    if s == 0 {
        return w * h;
    }
    w * h + level_pixels(w / 2, h / 2, s - 1)
}

// 4: a side is too short for the halvings, which leave the smallest level 4 pixels each way.
pub fn too_small(w: usize, h: usize, s: u32) -> bool
    requires { s ≤ max_halvings }
    ensures { result ≡ too_small w h s }
{
    let least = 4usize << s;
    w < least || h < least
}

// 2, 3, 4: what is wrong with sizes and halvings.
#[tactic(auto, unfolding(rules::specs::Refusals::bad_halvings))]
pub fn shape_refusal(w: usize, h: usize, s: u32) -> Result<(), Refusal>
    ensures number { number_in result ≡ shape_refusal w h s }
    ensures size { OnOk result (SizeOk w h) }
    ensures halvings { OnOk result (s ≤ max_halvings) }
{
    size_refusal(w, h)?;
    if MAX_HALVINGS < s {
        return Err(Refusal::Halvings);
    }
    lowest(Faults {
        small: too_small(w, h, s),
        ..NONE
    })
}

// The bytes of grey work memory: both frames at all levels.
pub fn grey_memory(w: usize, h: usize, s: u32) -> usize
    requires { (w ≤ max_side) × (h ≤ max_side) × (s ≤ max_halvings) }
    ensures { result ≡ grey_needed s w h }
{
    2 * level_pixels(w, h, s)
}

// The words of word work memory: both frames' two bitmaps, and the second's two once more, slid.
pub fn word_memory(w: usize, h: usize) -> usize
    requires { (w ≤ max_side) × (h ≤ max_side) }
    ensures { result ≡ words_needed w h }
{
    6 * (row_words(w) * h)
}

pub fn short_memory(w: usize, h: usize, s: u32, grey: usize, words: usize) -> bool
    requires { (w ≤ max_side) × (h ≤ max_side) × (s ≤ max_halvings) }
    ensures { result ≡ short_memory s w h grey words }
{
    let greys = grey_memory(w, h, s);
    let bitmaps = word_memory(w, h);
    grey < greys || words < bitmaps
}
