// P6 headers read: the first bytes of a file, field by field.
#![tactic(auto)]

ghost use Rattle.std.specs.Prelude.{◌≡◌};
ghost use Rattle.p6_whitespace.specs.Whitespace.{WhiteOrComment};
ghost use Rattle.p6_header.specs.P6Header.{is_magic, field_of, ending};
ghost use Rattle.p6_header.specs.ByGrammar.{Tells};

use p6_whitespace::{is_white, whitespace_length};
use text::Number;

// What a file's first bytes say: the size, and where the raster begins.
#[derive(Clone, Copy)]
pub struct Header {
    pub w: u32,
    pub h: u32,
    pub start: usize,
}

// The bytes that every P6 file begins with.
pub const MAGIC: [u8; 2] = *b"P6";

// The largest value of a sample, the only one that is read and written.
pub const LARGEST: u32 = 255;

fn is_magic(file: &[u8]) -> bool
    ensures { result ≡ is_magic file.now }
{
    file.starts_with(&MAGIC)
}

// Whitespace and then a number, at the beginning of some bytes.
fn read_field(bytes: &[u8]) -> Option<Number>
    ensures { result ≡ field_of bytes.now }
{
    let blanks = whitespace_length(bytes);
    if blanks == 0 {
        return None;
    }
    let number = text::read_number(&bytes[blanks..])?;
    Some(Number {
        value: number.value,
        count: blanks + number.count,
    })
}

// The header whose three numbers are read, up to place `at`.
#[tactic(auto, unfolding(crate::specs::P6Header::ending))]
fn finish(file: &[u8], w: u32, h: u32, largest: u32, at: usize) -> Option<Header>
    ensures { result ≡ ending file.now w h largest at }
{
    if largest != LARGEST {
        return None;
    }
    let last = *file.get(at)?;
    if !is_white(last) {
        return None;
    }
    let start = at + 1;
    Some(Header { w, h, start })
}

// The header of a file, as the grammar has it.
pub fn parse(file: &[u8]) -> Option<Header>
    ensures { Tells WhiteOrComment file.now result }
{
    if !is_magic(file) {
        return None;
    }
    let at = MAGIC.len();
    let w = read_field(&file[at..])?;
    let at1 = at + w.count;
    let h = read_field(&file[at1..])?;
    let at2 = at1 + h.count;
    let largest = read_field(&file[at2..])?;
    finish(file, w.value, h.value, largest.value, at2 + largest.count)
}
