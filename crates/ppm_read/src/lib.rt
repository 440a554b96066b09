// The reader of P6 files (Netpbm's ppm): the offered calls.
#![tactic(auto)]

pub mod reading;

ghost use Rattle.std.specs.Prelude.{◌≡◌};
ghost use Rattle.rules.specs.RefusalNumbers.{coded};
ghost use Rattle.ppm_read.specs.P6.{size_answer, RasterCall};

use rules::Refusal;

// A frame's width and height.
#[derive(Clone, Copy, Debug, PartialEq, Eq)]
pub struct Size {
    pub w: usize,
    pub h: usize,
}

// The raster of a P6 file, as the part of the file's bytes that it is; empty when refused.
pub fn p6_raster(file: &[u8]) -> &[u8]
    ensures { RasterCall file.now file.entry.ref_ptr result.now result.ref_ptr }
{
    if reading::file_refusal(file).is_err() {
        return &file[..0];
    }
    let start = reading::raster_start(file);
    &file[start..]
}

// The companion: the size of the frame that a P6 file holds.
pub fn p6_size(file: &[u8]) -> Result<Size, Refusal>
    ensures { coded result ≡ size_answer file.now }
{
    reading::file_refusal(file)?;
    Ok(reading::frame_size(file))
}
