// P6 headers written: their length, and their bytes put into a lent buffer.

ghost use Rattle.std.specs.Prelude.{◌≡◌, ◌++◌, ◌+◌, ◌≤◌, length};
ghost use Rattle.rules.specs.RefusalNumbers.{number_in};
ghost use Rattle.text.specs.Digits.{digits};
ghost use Rattle.text.specs.Puts.{Put};
ghost use Rattle.ppm_write.specs.P6Writes.{header, write_refusal};

use p6_header::{LARGEST, MAGIC};
use refusals::{Faults, NONE, lowest, size_refusal};
use rules::Refusal;
use text::{digit_count, put, put_number};

// Two bytes of the magic, three numbers, and a byte of whitespace before and after each.
fn header_length(w: u32, h: u32) -> usize
    ensures { result ≡ length (header w h) }
{
    MAGIC.len() + digit_count(w) + digit_count(h) + digit_count(LARGEST) + 4
}

pub fn write_refusal(w: usize, h: usize, raster: usize, out: usize) -> Result<(), Refusal>
    ensures { number_in result ≡ write_refusal w h raster out }
{
    size_refusal(w, h)?;
    let bytes = 3 * (w * h);
    let needed = header_length(w as u32, h as u32) + bytes;
    lowest(Faults {
        length: raster != bytes,
        room: out < needed,
        ..NONE
    })
}

// A number and the whitespace after it, put at place `at`.
fn put_field(out: &mut [u8], at: usize, n: u32, white: &[u8]) -> usize
    requires { at + length (digits n ++ white.now) ≤ length out.old }
    ensures place { result ≡ at + length (digits n ++ white.now) }
    ensures output { Put at (digits n ++ white.now) out.old out.new }
{
    let next = put_number(out, at, n);
    put(out, next, white)
}

// Puts the header at the beginning, and answers the place after it.
pub fn put_header(out: &mut [u8], w: u32, h: u32) -> usize
    requires { length (header w h) ≤ length out.old }
    ensures place { result ≡ length (header w h) }
    ensures output { Put 0 (header w h) out.old out.new }
{
    let mut at = put(out, 0, &MAGIC);
    at = put(out, at, b"\n");
    at = put_field(out, at, w, b" ");
    at = put_field(out, at, h, b"\n");
    put_field(out, at, LARGEST, b"\n")
}
