// Numbers and parts of bytes. Nothing here requires anything: past the end a number is 0, and a part that does not fit
// is empty.

// The bytes from a place on.
pub fn rest(bytes: &[u8], place: usize) -> &[u8] {
    bytes.get(place..).unwrap_or(&[])
}

pub fn part(bytes: &[u8], place: usize, length: usize) -> &[u8] {
    rest(bytes, place).get(..length).unwrap_or(&[])
}

// The 32-bit number at a place.
pub fn number_at(bytes: &[u8], place: usize) -> u32 {
    match rest(bytes, place).first_chunk() {
        Some(four) => u32::from_le_bytes(*four),
        None => 0,
    }
}
