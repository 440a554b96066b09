// P6 files, read and written.

ghost use Rattle.std.specs.Prelude.{◌≡◌, length};
ghost use Rattle.p6_header.specs.P6Header.{header_of, start_in};
ghost use Rattle.ppm_read.specs.P6.{p6_refusal, size_in, raster_of};
ghost use Rattle.ppm_write.specs.P6Writes.{WriteCall};
ghost use Rattle.rules.specs.Answers.{answer_for};
ghost use Rattle.c_answers.specs.Values.{value_after};

use c_answers::value_into;
use ppm_read::reading::{file_refusal, raster_start};
use ppm_read::{p6_raster, p6_size};
use ppm_write::p6_write;

#[unsafe(no_mangle)]
pub extern "C" fn mtb_p6_size(file: &[u8], w: &mut u32, h: &mut u32) -> u32
    ensures answer { result ≡ p6_refusal file.now }
    ensures w { w.new ≡ value_after result (size_in (header_of file.now)).w w.old }
    ensures h { h.new ≡ value_after result (size_in (header_of file.now)).h h.old }
{
    match p6_size(file) {
        Ok(size) => {
            *w = size.w as u32;
            *h = size.h as u32;
            0
        }
        Err(refusal) => u32::from(refusal),
    }
}

// Where the raster begins in the file, and its bytes.
#[unsafe(no_mangle)]
pub extern "C" fn mtb_p6_raster(file: &[u8], start: &mut usize, bytes: &mut usize) -> u32
    ensures answer { result ≡ p6_refusal file.now }
    ensures start { start.new ≡ value_after result (start_in (header_of file.now)) start.old }
    ensures bytes { bytes.new ≡ value_after result (length (raster_of file.now)) bytes.old }
{
    match file_refusal(file) {
        Ok(()) => {
            let raster = p6_raster(file);
            *start = raster_start(file);
            *bytes = raster.len();
            0
        }
        Err(refusal) => u32::from(refusal),
    }
}

#[unsafe(no_mangle)]
pub extern "C" fn mtb_p6_write(
    w: u32,
    h: u32,
    raster: &[u8],
    out: &mut [u8],
    written: &mut usize,
) -> u32
    ensures call { WriteCall w h raster.now out.old out.new (answer_for result written.new) }
    ensures refused { (result ≡ 0 → ⊥) → written.new ≡ written.old }
{
    value_into(p6_write(w as usize, h as usize, raster, out), written)
}
