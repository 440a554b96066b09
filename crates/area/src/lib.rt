// The common area of a series' frames: the offered call.
#![tactic(auto)]

ghost use Rattle.rules.specs.Answers.{answer_for};
ghost use Rattle.rules.specs.RefusalNumbers.{number_in, coded};
ghost use Rattle.std.specs.Prelude.{◌≡◌, ◌*◌, ◌≤◌, length};
ghost use Rattle.area.specs.Common.{nothing_common, common_area, area_answer};
ghost use Rattle.rules.specs.Limits.{max_side};
ghost use Rattle.rules.specs.Refusals.{◌when◌};
ghost use Rattle.area.specs.Sides.{offsets_refusal, InRange};

use ranges::some_outside;
use refusals::{Faults, NONE, bad_frames, lowest, size_refusal};
use rules::Refusal;
use sides::{high_side, low_side};

mod ranges;
mod sides;

// Columns from left up to right, rows from top up to bottom; right and bottom are not included.
#[derive(Clone, Copy)]
pub struct Area {
    pub left: usize,
    pub right: usize,
    pub top: usize,
    pub bottom: usize,
}

// What refuses the call, as far as no side of the area is asked.
#[tactic(auto, unfolding(crate::specs::Sides::offsets_refusal, rules::specs::Refusals::bad_frames))]
fn offsets_refusal(w: usize, h: usize, n: usize, offsets: &[i32]) -> Result<(), Refusal>
    ensures { number_in result ≡ offsets_refusal w h n offsets.now }
{
    size_refusal(w, h)?;
    if bad_frames(n) {
        return Err(Refusal::Frames);
    }
    let numbers = 2 * n;
    lowest(Faults {
        length: offsets.len() != numbers,
        offset: some_outside(offsets),
        ..NONE
    })
}

// The area that every frame has, from offsets that are near enough for their sums.
fn overlap(w: usize, h: usize, n: usize, offsets: &[i32]) -> Result<Area, Refusal>
    requires width { w ≤ max_side }
    requires height { h ≤ max_side }
    requires exact { length offsets.now ≡ 2 * n }
    requires near { InRange offsets.now }
    ensures { coded result ≡ answer_for (13 when nothing_common w h n offsets.now) (common_area w h n offsets.now) }
{
    let left = low_side(offsets, n, 0);
    let right = high_side(offsets, n, 0, w);
    let top = low_side(offsets, n, 1);
    let bottom = high_side(offsets, n, 1, h);
    if left < right && top < bottom {
        return Ok(Area {
            left: left as usize,
            right: right as usize,
            top: top as usize,
            bottom: bottom as usize,
        });
    }
    Err(Refusal::Apart)
}

// The common area of n frames at their offsets.
pub fn common_area(w: usize, h: usize, n: usize, offsets: &[i32]) -> Result<Area, Refusal>
    ensures { coded result ≡ area_answer w h n offsets.now }
{
    offsets_refusal(w, h, n, offsets)?;
    overlap(w, h, n, offsets)
}
