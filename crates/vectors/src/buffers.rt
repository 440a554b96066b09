// Lent buffers: what they hold before a call and after it; inputs that are not bytes.

use crate::element::{Element, Lent, load};
use vectors_data::record::{Input, Output, Record};

// Each element of a lent buffer of these.
const WORD: u64 = 0xA5A5A5A5A5A5A5A5;

pub const COUNT: u32 = 0xC3C3C3C3;

pub const COMPARED: u32 = 0xB4B4B4B4;

pub const OFFSET: i32 = 0x5A5A5A5A;

pub fn fill_bytes(out: &mut [u8]) {
    for (i, byte) in out.iter_mut().enumerate() {
        *byte = (i % 251) as u8;
    }
}

// The first n elements of a memory; where there are fewer, none, so that the comparison of lengths fails.
pub fn lend<T>(memory: &mut [T], n: usize) -> &mut [T] {
    if memory.len() < n {
        return &mut memory[..0];
    }
    &mut memory[..n]
}

pub fn lend_bytes(memory: &mut [u8], n: usize) -> &mut [u8] {
    let lent = lend(memory, n);
    fill_bytes(lent);
    lent
}

pub fn lend_words(memory: &mut [u64], n: usize) -> &mut [u64] {
    let lent = lend(memory, n);
    lent.fill(WORD);
    lent
}

// An input of the record, in a room; where that is too short, nothing.
pub fn input<'a, T: Element>(record: Record<'_>, input: Input, room: &'a mut [T]) -> &'a mut [T] {
    let loaded = lend(room, record.input_length(input));
    load(record.input_on(input), loaded);
    loaded
}

// Whether a buffer is an output of the record: its length, and what it holds.
pub fn is_output<T: Lent>(buffer: &[T], record: Record<'_>, output: Output) -> bool {
    buffer.len() == record.output_length(output) && T::holds(buffer, record.contents(output))
}
