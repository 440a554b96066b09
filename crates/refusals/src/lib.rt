// The order of the refusals, and tests that several calls share. Whether a call is refused is worked
// out before it writes anything, from sizes, settings and lengths alone, but for a file's header (1) and
// a common area's offsets (12, 13): of those that apply, the one with the lowest number.
#![tactic(auto)]

ghost use Rattle.std.specs.Prelude.{◌≡◌, OnOk};
ghost use Rattle.rules.specs.Accepted.{SizeOk};
ghost use Rattle.rules.specs.Calls.{exclusion_refusal};
ghost use Rattle.rules.specs.RefusalNumbers.{number_in, numbered};
ghost use Rattle.rules.specs.Refusals.{◌when◌, ◌or_else◌, bad_size, bad_frames, bad_percentile, tolerance_refusal, band_refusal};

use rules::{Exclusion, Numbered, Refusal};

pub const MAX_SIDE: usize = 4096;

pub const MAX_HALVINGS: u32 = 8;

pub const MAX_TOLERANCE: u32 = 64;

pub const MAX_BAND: u32 = 16;

pub const MAX_FRAMES: usize = 16;

// What is wrong with a call. A header, sizes and halvings (1 to 3) are tested before, since other tests
// work with them; the common area (13) after, since it has to be worked out.
#[derive(Clone, Copy)]
pub struct Faults<E = Refusal> {
    pub small: bool, // 4: a side is too short for the halvings
    pub excluded: Result<(), E>, // what refuses the exclusion setting, in the place of 5
    pub frames: bool, // 6: the number of frames
    pub reference: bool, // 7: the reference is no frame
    pub percentile: bool, // 8: a percentile, or how many there are
    pub length: bool, // 9: an input's length
    pub room: bool, // 10: an output is short
    pub memory: bool, // 11: work memory is short
    pub offset: bool, // 12: an offset is far out
    pub row: bool, // 14: a row past the last
}

pub const NONE: Faults = Faults {
    small: false,
    excluded: Ok(()),
    frames: false,
    reference: false,
    percentile: false,
    length: false,
    room: false,
    memory: false,
    offset: false,
    row: false,
};

// The order of the refusals.
pub fn lowest<E: Numbered>(f: Faults<E>) -> Result<(), E>
    ensures { numbered E.number result ≡ 4 when f.small
        or_else numbered E.number f.excluded
        or_else 6 when f.frames
        or_else 7 when f.reference
        or_else 8 when f.percentile
        or_else 9 when f.length
        or_else 10 when f.room
        or_else 11 when f.memory
        or_else 12 when f.offset
        or_else 14 when f.row }
{
    if f.small {
        return Err(Refusal::Small.into());
    }
    // A number of 0 refuses nothing.
    match f.excluded {
        Err(other) if other.number() != 0 => return Err(other),
        _ => (),
    }
    if f.frames {
        return Err(Refusal::Frames.into());
    }
    if f.reference {
        return Err(Refusal::Reference.into());
    }
    if f.percentile {
        return Err(Refusal::Percentile.into());
    }
    if f.length {
        return Err(Refusal::Length.into());
    }
    if f.room {
        return Err(Refusal::Room.into());
    }
    if f.memory {
        return Err(Refusal::Memory.into());
    }
    if f.offset {
        return Err(Refusal::Offset.into());
    }
    if f.row {
        return Err(Refusal::Row.into());
    }
    Ok(())
}

#[tactic(auto, unfolding(rules::specs::Refusals::bad_size, rules::specs::Refusals::bad_side))]
pub fn bad_size(w: usize, h: usize) -> bool
    ensures { result ≡ bad_size w h }
{
    w == 0 || MAX_SIDE < w || (h == 0 || MAX_SIDE < h)
}

// 2. What is accepted keeps the products of sizes from overflowing.
pub fn size_refusal(w: usize, h: usize) -> Result<(), Refusal>
    ensures number { number_in result ≡ 2 when bad_size w h }
    ensures known { OnOk result (SizeOk w h) }
{
    if bad_size(w, h) {
        return Err(Refusal::Size);
    }
    Ok(())
}

#[tactic(auto, unfolding(rules::specs::Refusals::bad_frames))]
pub fn bad_frames(n: usize) -> bool
    ensures { result ≡ bad_frames n }
{
    n == 0 || MAX_FRAMES < n
}

#[tactic(auto, unfolding(rules::specs::Refusals::bad_percentile))]
pub fn bad_percentile(percentile: u32) -> bool
    ensures { result ≡ bad_percentile percentile }
{
    !matches!(percentile, 17 | 50 | 83)
}

#[tactic(auto, unfolding(rules::specs::Refusals::bad_tolerance))]
pub fn tolerance_refusal(tolerance: u32) -> Result<(), Refusal>
    ensures { number_in result ≡ tolerance_refusal tolerance }
{
    if MAX_TOLERANCE < tolerance {
        return Err(Refusal::Tolerance);
    }
    Ok(())
}

// In the place of 5.
#[tactic(auto, unfolding(rules::specs::Refusals::bad_band))]
pub fn band_refusal(band: u32) -> Result<(), Refusal>
    ensures { number_in result ≡ band_refusal band }
{
    if MAX_BAND < band {
        return Err(Refusal::Band);
    }
    Ok(())
}

// What refuses a setting of either kind.
pub fn exclusion_refusal(exclusion: Exclusion) -> Result<(), Refusal>
    ensures { number_in result ≡ exclusion_refusal exclusion }
{
    match exclusion {
        Exclusion::Tolerance(tolerance) => tolerance_refusal(tolerance),
        Exclusion::Band(band) => band_refusal(band),
    }
}
