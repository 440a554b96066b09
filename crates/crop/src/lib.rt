// Crops of a raster: the places of a frame's four quadrants, and a crop's grey, row by row straight from the
// frame.
#![tactic(auto)]

ghost use Rattle.std.specs.Prelude.{◌≡◌, ◌+◌, ◌*◌, ◌≤◌, length};
ghost use Rattle.rules.specs.Greys.{grey_frame};
ghost use Rattle.rules.specs.Buffers.{FrameAt};
ghost use Rattle.crop.specs.Crops.{part, Within};
ghost use Rattle.crop.specs.Quadrants.{crop_at, quadrant_crop};

use grey::conversion::convert;

// The w by h pixels of a frame that begin at column `left` and row `top`.
#[derive(Clone, Copy)]
pub struct Crop {
    pub left: usize,
    pub top: usize,
    pub w: usize,
    pub h: usize,
}

#[derive(Clone, Copy)]
pub enum Quadrant {
    UpperLeft,
    UpperRight,
    LowerLeft,
    LowerRight,
}

fn crop_at(left: usize, top: usize, w: usize, h: usize) -> Crop
    ensures { result ≡ crop_at left top w h }
{
    Crop { left, top, w, h }
}

// A quadrant of a frame of w by h. An odd middle column or row belongs to none.
pub fn quadrant_crop(w: usize, h: usize, quadrant: Quadrant) -> Crop
    ensures { result ≡ quadrant_crop w h quadrant }
{
    let half_w = w / 2;
    let half_h = h / 2;
    let right = w - half_w;
    let lower = h - half_h;
    match quadrant {
        Quadrant::UpperLeft => crop_at(0, 0, half_w, half_h),
        Quadrant::UpperRight => crop_at(right, 0, half_w, half_h),
        Quadrant::LowerLeft => crop_at(0, lower, half_w, half_h),
        Quadrant::LowerRight => crop_at(right, lower, half_w, half_h),
    }
}

// The grey values of a crop of a raster of width w, written from place `to` on.
pub fn convert_crop(raster: &[u8], w: usize, crop: Crop, grey: &mut [u8], to: usize)
    requires within { Within crop w (length raster.now) }
    requires room { to + crop.w * crop.h ≤ length grey.old }
    ensures { FrameAt to crop.w (part crop (grey_frame w raster.now)) grey.old crop.h grey.new }
{
    for y in 0..crop.h {
        let from = 3 * ((crop.top + y) * w + crop.left);
        convert(&raster[from..], crop.w, grey, to + y * crop.w);
    }
}
