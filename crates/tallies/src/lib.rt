// Two counts of one pass in one number: the differences in its low 32 bits, the pixels compared above
// them. Rows, runs and frames add up that number; only a run's eights are counted apart (`Counters`), and
// then put into it.
#![tactic(auto)]

pub mod counter;

ghost use Rattle.std.specs.Prelude.{◌≡◌, ◌+◌, ◌/◌, ◌%◌, ◌<◌};
ghost use Rattle.rules.specs.Limits.{word_bits};
ghost use Rattle.rules.specs.Sums.{sum};
ghost use Rattle.rules.specs.Bitmaps.{bit};
ghost use Rattle.tallies.specs.Tallies.{compared_unit, tally};
ghost use Rattle.tallies.specs.Held.{held, most_eights};

use counter::Counter;
use popcount::table::BitCounts;
use rules::Tally;

// What a pixel that is compared adds.
const COMPARED: u64 = 4294967296;

// A word of each: where two frames differ, and where pixels of both are kept, which are compared.
#[derive(Clone, Copy)]
pub struct Words {
    pub differing: u64,
    pub kept: u64,
}

fn both_counts(count: u32, compared: u32) -> u64
    ensures { result ≡ tally count compared }
{
    count as u64 + COMPARED * (compared as u64)
}

// The two counts again.
pub fn split(both: u64) -> Tally
    ensures { (result.count ≡ both % compared_unit) × (result.compared ≡ both / compared_unit) }
{
    Tally {
        count: (both % COMPARED) as u32,
        compared: (both / COMPARED) as u32,
    }
}

impl Words {
    // Both counts of one word.
    pub fn tally(self, table: &BitCounts) -> u64
        ensures { result ≡ tally (sum word_bits (bit self.differing)) (sum word_bits (bit self.kept)) }
    {
        both_counts(
            table.word_count(self.differing),
            table.word_count(self.kept),
        )
    }
}

// Of seven words.
pub fn seven_word_tally(
    a: Words,
    b: Words,
    c: Words,
    d: Words,
    e: Words,
    f: Words,
    g: Words,
    table: &BitCounts,
) -> u64
    ensures { result ≡ tally
        (sum word_bits (bit a.differing) + sum word_bits (bit b.differing) + sum word_bits (bit c.differing) + sum word_bits (bit d.differing)
        + sum word_bits (bit e.differing) + sum word_bits (bit f.differing) + sum word_bits (bit g.differing))
        (sum word_bits (bit a.kept) + sum word_bits (bit b.kept) + sum word_bits (bit c.kept) + sum word_bits (bit d.kept)
        + sum word_bits (bit e.kept) + sum word_bits (bit f.kept) + sum word_bits (bit g.kept)) }
{
    both_counts(
        table.seven_word_count(
            a.differing,
            b.differing,
            c.differing,
            d.differing,
            e.differing,
            f.differing,
            g.differing,
        ),
        table.seven_word_count(a.kept, b.kept, c.kept, d.kept, e.kept, f.kept, g.kept),
    )
}

// A running count of each.
#[derive(Clone, Copy)]
pub struct Counters {
    pub differing: Counter,
    pub kept: Counter,
}

impl Counters {
    // Before the first word.
    pub const NOTHING: Counters = Counters {
        differing: Counter::NOTHING,
        kept: Counter::NOTHING,
    };

    // Eight words more.
    pub fn count_eight(
        self,
        a: Words,
        b: Words,
        c: Words,
        d: Words,
        e: Words,
        f: Words,
        g: Words,
        h: Words,
        table: &BitCounts,
    ) -> Counters
        requires room { (self.differing.eights < most_eights) × (self.kept.eights < most_eights) }
        ensures differing { held result.differing ≡ held self.differing
            + (sum word_bits (bit a.differing) + sum word_bits (bit b.differing) + sum word_bits (bit c.differing) + sum word_bits (bit d.differing)
            + sum word_bits (bit e.differing) + sum word_bits (bit f.differing) + sum word_bits (bit g.differing) + sum word_bits (bit h.differing)) }
        ensures kept { held result.kept ≡ held self.kept
            + (sum word_bits (bit a.kept) + sum word_bits (bit b.kept) + sum word_bits (bit c.kept) + sum word_bits (bit d.kept)
            + sum word_bits (bit e.kept) + sum word_bits (bit f.kept) + sum word_bits (bit g.kept) + sum word_bits (bit h.kept)) }
    {
        Counters {
            differing: self.differing.count_eight(
                a.differing,
                b.differing,
                c.differing,
                d.differing,
                e.differing,
                f.differing,
                g.differing,
                h.differing,
                table,
            ),
            kept: self.kept.count_eight(
                a.kept, b.kept, c.kept, d.kept, e.kept, f.kept, g.kept, h.kept, table,
            ),
        }
    }

    // What both have counted.
    pub fn tally(self, table: &BitCounts) -> u64
        requires room { (held self.differing < compared_unit) × (held self.kept < compared_unit) }
        ensures { result ≡ tally (held self.differing) (held self.kept) }
    {
        both_counts(self.differing.count(table), self.kept.count(table))
    }
}
