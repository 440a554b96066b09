// The writer of P6 files (Netpbm's ppm): the offered call.
#![tactic(auto)]

pub mod writing;

ghost use Rattle.rules.specs.RefusalNumbers.{coded};
ghost use Rattle.ppm_write.specs.P6Writes.{WriteCall};

use rules::Refusal;

// Writes a P6 file into a lent buffer, and tells the number of its bytes.
pub fn p6_write(w: usize, h: usize, raster: &[u8], out: &mut [u8]) -> Result<usize, Refusal>
    ensures { WriteCall w h raster.now out.old out.new (coded result) }
{
    writing::write_refusal(w, h, raster.len(), out.len())?;
    let start = writing::put_header(out, w as u32, h as u32);
    Ok(text::put(out, start, raster))
}
