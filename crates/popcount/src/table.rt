// The 1 bits of one word, added byte by byte from a constant table.

ghost use Rattle.std.specs.Prelude.{◌≡◌, ◌≤◌};
ghost use Rattle.rules.specs.Limits.{word_bits};
ghost use Rattle.rules.specs.Sums.{sum};
ghost use Rattle.rules.specs.Bitmaps.{bit};
ghost use Rattle.popcount.specs.Table.{CountsBits};

// The number of 1 bits of each byte, proved to be right. A call makes the table once and lends it down.
#[derive(Drop)]
pub struct BitCounts {
    counts: [u8; 256],
    ghost counts_bits: { CountsBits counts },
}

// The same as a constant. A table takes it whole, since an index into the constant itself would copy it.
pub const BIT_COUNTS: [u8; 256] = [
    0, 1, 1, 2, 1, 2, 2, 3, 1, 2, 2, 3, 2, 3, 3, 4, 1, 2, 2, 3, 2, 3, 3, 4, 2, 3, 3, 4, 3, 4, 4, 5,
    1, 2, 2, 3, 2, 3, 3, 4, 2, 3, 3, 4, 3, 4, 4, 5, 2, 3, 3, 4, 3, 4, 4, 5, 3, 4, 4, 5, 4, 5, 5, 6,
    1, 2, 2, 3, 2, 3, 3, 4, 2, 3, 3, 4, 3, 4, 4, 5, 2, 3, 3, 4, 3, 4, 4, 5, 3, 4, 4, 5, 4, 5, 5, 6,
    2, 3, 3, 4, 3, 4, 4, 5, 3, 4, 4, 5, 4, 5, 5, 6, 3, 4, 4, 5, 4, 5, 5, 6, 4, 5, 5, 6, 5, 6, 6, 7,
    1, 2, 2, 3, 2, 3, 3, 4, 2, 3, 3, 4, 3, 4, 4, 5, 2, 3, 3, 4, 3, 4, 4, 5, 3, 4, 4, 5, 4, 5, 5, 6,
    2, 3, 3, 4, 3, 4, 4, 5, 3, 4, 4, 5, 4, 5, 5, 6, 3, 4, 4, 5, 4, 5, 5, 6, 4, 5, 5, 6, 5, 6, 6, 7,
    2, 3, 3, 4, 3, 4, 4, 5, 3, 4, 4, 5, 4, 5, 5, 6, 3, 4, 4, 5, 4, 5, 5, 6, 4, 5, 5, 6, 5, 6, 6, 7,
    3, 4, 4, 5, 4, 5, 5, 6, 4, 5, 5, 6, 5, 6, 6, 7, 4, 5, 5, 6, 5, 6, 6, 7, 5, 6, 6, 7, 6, 7, 7, 8,
];

impl BitCounts {
    pub fn new() -> Self {
        BitCounts { counts: BIT_COUNTS }
    }

    // Of the lowest byte of a word.
    fn byte_count(&self, v: u64) -> u32
        ensures { (result ≡ sum 8 (bit v)) × (result ≤ 8) }
    {
        self.counts[(v % 256) as usize] as u32
    }

    // Of a whole word.
    pub fn word_count(&self, v: u64) -> u32
        ensures { result ≡ sum word_bits (bit v) }
    {
        self.byte_count(v)
            + self.byte_count(v >> 8)
            + self.byte_count(v >> 16)
            + self.byte_count(v >> 24)
            + self.byte_count(v >> 32)
            + self.byte_count(v >> 40)
            + self.byte_count(v >> 48)
            + self.byte_count(v >> 56)
    }
}
