// How a call of pair or series aligns.

#[derive(Clone, Copy)]
pub enum Alignment {
    LeastMove,
    Ward,
    Band,
}

// Calls have the numbers of tests/FORMAT.md.
impl From<u32> for Alignment {
    fn from(call: u32) -> Self {
        match call {
            0..=17 => Alignment::LeastMove,
            18..=23 => Alignment::Ward,
            24.. => Alignment::Band,
        }
    }
}
