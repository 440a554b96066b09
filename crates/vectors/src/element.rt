// What lent buffers are made of, and how a data file has it.

// Of a buffer of more bytes, or words, than these the file has a digest.
const FULL_BYTES: usize = 256;

const FULL_WORDS: usize = 32;

const DIGEST_BASIS: u64 = 0xCBF29CE484222325;

// FNV's prime.
const DIGEST_PRIME: u64 = 0x100000001B3;

fn digest(basis: u64, bytes: &[u8]) -> u64 {
    bytes.iter().fold(basis, |so_far, byte| {
        (so_far ^ u64::from(*byte)).wrapping_mul(DIGEST_PRIME)
    })
}

fn word_digest(words: &[u64]) -> u64 {
    words.iter().fold(DIGEST_BASIS, |so_far, word| {
        digest(so_far, &word.to_le_bytes())
    })
}

// Whether the digest that the contents are is this one.
fn is_digest(contents: &[u8], digest: u64) -> bool {
    u64::at(contents, 0) == digest
}

// Whether the contents begin with just these elements.
fn same<T: Element>(buffer: &[T], contents: &[u8]) -> bool {
    buffer
        .iter()
        .enumerate()
        .all(|(i, element)| *element == T::at(contents, i))
}

pub trait Element: Copy + PartialEq {
    // Element i of those that the bytes are, little-endian; past them 0.
    fn at(bytes: &[u8], i: usize) -> Self;
}

impl Element for u8 {
    fn at(bytes: &[u8], i: usize) -> u8 {
        bytes.get(i).copied().unwrap_or(0)
    }
}

impl Element for u32 {
    fn at(bytes: &[u8], i: usize) -> u32 {
        let (numbers, _) = bytes.as_chunks();
        numbers.get(i).map_or(0, |four| u32::from_le_bytes(*four))
    }
}

impl Element for i32 {
    fn at(bytes: &[u8], i: usize) -> i32 {
        u32::at(bytes, i).cast_signed()
    }
}

impl Element for u64 {
    fn at(bytes: &[u8], i: usize) -> u64 {
        let (numbers, _) = bytes.as_chunks();
        numbers.get(i).map_or(0, |eight| u64::from_le_bytes(*eight))
    }
}

// The elements that the bytes begin with.
pub fn load<T: Element>(bytes: &[u8], out: &mut [T]) {
    for (i, element) in out.iter_mut().enumerate() {
        *element = T::at(bytes, i);
    }
}

// An element of buffers whose contents a record has.
pub trait Lent: Element {
    // Whether a buffer holds what the contents say.
    fn holds(buffer: &[Self], contents: &[u8]) -> bool;
}

impl Lent for u8 {
    fn holds(buffer: &[u8], contents: &[u8]) -> bool {
        if FULL_BYTES < buffer.len() {
            return is_digest(contents, digest(DIGEST_BASIS, buffer));
        }
        contents.starts_with(buffer)
    }
}

impl Lent for u32 {
    fn holds(buffer: &[u32], contents: &[u8]) -> bool {
        same(buffer, contents)
    }
}

impl Lent for i32 {
    fn holds(buffer: &[i32], contents: &[u8]) -> bool {
        same(buffer, contents)
    }
}

impl Lent for u64 {
    fn holds(buffer: &[u64], contents: &[u8]) -> bool {
        if FULL_WORDS < buffer.len() {
            return is_digest(contents, word_digest(buffer));
        }
        same(buffer, contents)
    }
}
