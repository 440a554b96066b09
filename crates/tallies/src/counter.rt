// A running count of the 1 bits of words, eight at a time. What is not yet a whole eight in a place of
// the word stays in three words, so that only one word in eight is looked up.

ghost use Rattle.std.specs.Prelude.{◌≡◌, ◌+◌, ◌<◌};
ghost use Rattle.rules.specs.Limits.{word_bits};
ghost use Rattle.rules.specs.Sums.{sum};
ghost use Rattle.rules.specs.Bitmaps.{bit};
ghost use Rattle.tallies.specs.Tallies.{compared_unit};
ghost use Rattle.tallies.specs.Held.{held, most_eights};

use popcount::adder::full_adder;
use popcount::table::BitCounts;

// Words whose bits stand for one, two and four each, and a number of eights.
#[derive(Clone, Copy)]
pub struct Counter {
    pub ones: u64,
    pub twos: u64,
    pub fours: u64,
    pub eights: u32,
}

impl Counter {
    // Before the first word.
    pub const NOTHING: Counter = Counter {
        ones: 0,
        twos: 0,
        fours: 0,
        eights: 0,
    };

    // Eight words more.
    pub fn count_eight(
        self,
        a: u64,
        b: u64,
        c: u64,
        d: u64,
        e: u64,
        f: u64,
        g: u64,
        h: u64,
        table: &BitCounts,
    ) -> Counter
        requires room { self.eights < most_eights }
        ensures { held result ≡ held self + (sum word_bits (bit a) + sum word_bits (bit b) + sum word_bits (bit c) + sum word_bits (bit d)
            + sum word_bits (bit e) + sum word_bits (bit f) + sum word_bits (bit g) + sum word_bits (bit h)) }
    {
        let ab = full_adder(self.ones, a, b);
        let cd = full_adder(ab.low, c, d);
        let ef = full_adder(cd.low, e, f);
        let gh = full_adder(ef.low, g, h);
        let abcd = full_adder(self.twos, ab.carry, cd.carry);
        let efgh = full_adder(abcd.low, ef.carry, gh.carry);
        let all = full_adder(self.fours, abcd.carry, efgh.carry);
        let eights = self.eights + table.word_count(all.carry);
        Counter {
            ones: gh.low,
            twos: efgh.low,
            fours: all.low,
            eights,
        }
    }

    // The number of 1 bits counted.
    pub fn count(self, table: &BitCounts) -> u32
        requires room { held self < compared_unit }
        ensures { result ≡ held self }
    {
        table.word_count(self.ones)
            + 2 * table.word_count(self.twos)
            + 4 * table.word_count(self.fours)
            + 8 * self.eights
    }
}
