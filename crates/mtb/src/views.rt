// Views of an aligned series: the common area, the moved frame, the blink row.

ghost use Rattle.std.specs.Prelude.{◌≡◌, length};
ghost use Rattle.area.specs.Common.{area_refusal, common_area};
ghost use Rattle.moved.specs.Moved.{MovedCall};
ghost use Rattle.rules.specs.Answers.{written};
ghost use Rattle.blink.specs.Blink.{blink_refusal, row_start, blink_row};
ghost use Rattle.c_answers.specs.Values.{value_after};

use area::common_area;
use blink::{blink_row, blink_start};
use c_answers::refusal_in;
use moved::moved;

#[unsafe(no_mangle)]
pub extern "C" fn mtb_common_area(
    w: u32,
    h: u32,
    n: u32,
    offsets: &[i32],
    left: &mut u32,
    right: &mut u32,
    top: &mut u32,
    bottom: &mut u32,
) -> u32
    ensures answer { result ≡ area_refusal w h n offsets.now }
    ensures left { left.new ≡ value_after result (common_area w h n offsets.now).left left.old }
    ensures right { right.new ≡ value_after result (common_area w h n offsets.now).right right.old }
    ensures top { top.new ≡ value_after result (common_area w h n offsets.now).top top.old }
    ensures bottom { bottom.new ≡ value_after result (common_area w h n offsets.now).bottom bottom.old }
{
    match common_area(w as usize, h as usize, n as usize, offsets) {
        Ok(area) => {
            *left = area.left as u32;
            *right = area.right as u32;
            *top = area.top as u32;
            *bottom = area.bottom as u32;
            0
        }
        Err(refusal) => u32::from(refusal),
    }
}

#[unsafe(no_mangle)]
pub extern "C" fn mtb_moved(w: u32, h: u32, dx: i32, dy: i32, raster: &[u8], out: &mut [u8]) -> u32
    ensures { MovedCall w h dx dy raster.now out.old out.new (written result) }
{
    refusal_in(moved(w as usize, h as usize, dx, dy, raster, out))
}

// Where the row begins in the chosen raster, and its bytes.
#[unsafe(no_mangle)]
pub extern "C" fn mtb_blink_row<'a>(
    w: u32,
    h: u32,
    y: u32,
    other: bool,
    first: &'a [u8],
    second: &'a [u8],
    start: &mut usize,
    bytes: &mut usize,
) -> u32
    ensures answer { result ≡ blink_refusal w h y (length first.now) (length second.now) }
    ensures start { start.new ≡ value_after result (row_start w y) start.old }
    ensures bytes { bytes.new ≡ value_after result (length (blink_row w h y other first.now second.now)) bytes.old }
{
    match blink_start(w as usize, h as usize, y as usize, first, second) {
        Ok(from) => {
            let row = blink_row(w as usize, h as usize, y as usize, other, first, second);
            *start = from;
            *bytes = row.len();
            0
        }
        Err(refusal) => u32::from(refusal),
    }
}
