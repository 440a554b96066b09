// What a P6 file's header means for its reader: a refusal number, the raster's place, the frame's size.

ghost use Rattle.std.specs.Prelude.{◌≡◌};
ghost use Rattle.rules.specs.RefusalNumbers.{number_in};
ghost use Rattle.p6_header.specs.P6Header.{header_of, start_in};
ghost use Rattle.ppm_read.specs.P6.{p6_refusal, size_in};

use super::Size;
use p6_header::parse;
use refusals::{Faults, NONE, lowest, size_refusal};
use rules::Refusal;

pub fn file_refusal(file: &[u8]) -> Result<(), Refusal>
    ensures { number_in result ≡ p6_refusal file.now }
{
    let Some(header) = parse(file) else {
        return Err(Refusal::Header);
    };
    let w = header.w as usize;
    let h = header.h as usize;
    size_refusal(w, h)?;
    let bytes = 3 * (w * h);
    let raster = file.len() - header.start;
    lowest(Faults {
        length: raster != bytes,
        ..NONE
    })
}

// Where the raster begins.
pub fn raster_start(file: &[u8]) -> usize
    ensures { result ≡ start_in (header_of file.now) }
{
    parse(file).map_or(0, |header| header.start)
}

pub fn frame_size(file: &[u8]) -> Size
    ensures { result ≡ size_in (header_of file.now) }
{
    let Some(header) = parse(file) else {
        return Size { w: 0, h: 0 };
    };
    Size {
        w: header.w as usize,
        h: header.h as usize,
    }
}
