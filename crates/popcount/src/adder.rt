// The 1 bits of seven words by three look-ups in place of seven: full adders lay the words together
// until one word of ones, one of twos and one of fours are left.

ghost use Rattle.std.specs.Prelude.{◌≡◌, ◌+◌, ◌*◌};
ghost use Rattle.rules.specs.Limits.{word_bits};
ghost use Rattle.rules.specs.Sums.{sum};
ghost use Rattle.rules.specs.Bitmaps.{bit};

use crate::table::BitCounts;

// Three words added in each of their places: the low digits of the sums, and the carries.
#[derive(Clone, Copy)]
pub struct Sums {
    pub low: u64,
    pub carry: u64,
}

pub fn full_adder(a: u64, b: u64, c: u64) -> Sums
    ensures { sum word_bits (bit a) + sum word_bits (bit b) + sum word_bits (bit c) ≡ sum word_bits (bit result.low) + 2 * sum word_bits (bit result.carry) }
{
    let half = a ^ b;
    Sums {
        low: half ^ c,
        carry: (a & b) | (half & c),
    }
}

impl BitCounts {
    // Of seven words. Words without a 1 are left before the look-ups.
    pub fn seven_word_count(&self, a: u64, b: u64, c: u64, d: u64, e: u64, f: u64, g: u64) -> u32
        ensures { result ≡ sum word_bits (bit a) + sum word_bits (bit b) + sum word_bits (bit c) + sum word_bits (bit d)
            + sum word_bits (bit e) + sum word_bits (bit f) + sum word_bits (bit g) }
    {
        let abc = full_adder(a, b, c);
        let def = full_adder(d, e, f);
        let all = full_adder(abc.low, def.low, g);
        let carried = full_adder(abc.carry, def.carry, all.carry);
        if (all.low | carried.low | carried.carry) == 0 {
            return 0;
        }
        self.word_count(all.low)
            + 2 * self.word_count(carried.low)
            + 4 * self.word_count(carried.carry)
    }
}
