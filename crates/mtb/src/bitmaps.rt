// Packed bitmaps: packing, shift, total, difference.

ghost use Rattle.std.specs.Prelude.{◌≡◌, length};
ghost use Rattle.rules.specs.Answers.{written};
ghost use Rattle.rules.specs.Bitmaps.{bit_at};
ghost use Rattle.rules.specs.Planes.{total};
ghost use Rattle.rules.specs.Refusals.{total_refusal, difference_refusal};
ghost use Rattle.rules.specs.Calls.{BitmapsCall, ShiftCall, planes_of, tally_of};
ghost use Rattle.c_answers.specs.Values.{value_after};

use c_answers::{refusal_in, value_into};

#[unsafe(no_mangle)]
pub extern "C" fn mtb_bitmaps(
    w: u32,
    h: u32,
    threshold: u8,
    tolerance: u32,
    grey: &[u8],
    thresholds: &mut [u64],
    exclusions: &mut [u64],
) -> u32
    ensures { BitmapsCall w h threshold tolerance grey.now
        thresholds.old thresholds.new exclusions.old exclusions.new (written result) }
{
    refusal_in(pack::bitmaps(
        w as usize, h as usize, threshold, tolerance, grey, thresholds, exclusions,
    ))
}

#[unsafe(no_mangle)]
pub extern "C" fn mtb_shift(
    w: u32,
    h: u32,
    dx: i32,
    dy: i32,
    bitmap: &[u64],
    out: &mut [u64],
) -> u32
    ensures { ShiftCall w h dx dy bitmap.now out.old out.new (written result) }
{
    refusal_in(shift::shift(w as usize, h as usize, dx, dy, bitmap, out))
}

#[unsafe(no_mangle)]
pub extern "C" fn mtb_total(w: u32, h: u32, bitmap: &[u64], count: &mut u32) -> u32
    ensures answer { result ≡ total_refusal w h (length bitmap.now) }
    ensures count { count.new ≡ value_after result (total w h (bit_at w h bitmap.now)) count.old }
{
    value_into(total::total(w as usize, h as usize, bitmap), count)
}

#[unsafe(no_mangle)]
pub extern "C" fn mtb_difference(
    w: u32,
    h: u32,
    dx: i32,
    dy: i32,
    threshold1: &[u64],
    exclusion1: &[u64],
    threshold2: &[u64],
    exclusion2: &[u64],
    count: &mut u32,
    compared: &mut u32,
) -> u32
    ensures answer { result ≡ difference_refusal w h (length threshold1.now) (length exclusion1.now)
        (length threshold2.now) (length exclusion2.now) }
    ensures count { count.new
        ≡ value_after result (tally_of w h dx dy (planes_of w h threshold1.now exclusion1.now)
        (planes_of w h threshold2.now exclusion2.now)).count count.old }
    ensures compared { compared.new
        ≡ value_after result (tally_of w h dx dy (planes_of w h threshold1.now exclusion1.now)
        (planes_of w h threshold2.now exclusion2.now)).compared compared.old }
{
    match difference::difference(
        w as usize, h as usize, dx, dy, threshold1, exclusion1, threshold2, exclusion2,
    ) {
        Ok(tally) => {
            *count = tally.count;
            *compared = tally.compared;
            0
        }
        Err(refusal) => u32::from(refusal),
    }
}
