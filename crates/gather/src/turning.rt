// Columns turned into rows, the bits of a word taken as 8 by 8, by exchanges of bits: of single bits, of
// squares of 2 by 2, of squares of 4 by 4.

ghost use Rattle.std.specs.Prelude.{◌≡◌, ◌+◌, ◌≤◌, ◌<◌, length};
ghost use Rattle.rules.specs.Bitmaps.{bit};
ghost use Rattle.rules.specs.Buffers.{RowAt};
ghost use Rattle.gather.specs.Gathers.{by_columns, turned_at, exchanged};

// Where bit p of the mask is 1, bits p and p + s of y exchanged.
#[tactic(auto, unfolding(crate::specs::Gathers::exchanged))]
fn exchange(mask: u64, s: u32, y: u64) -> u64
    requires { s < 64 }
    ensures { result ≡ exchanged mask s y }
{
    let t = (y ^ (y >> s)) & mask;
    y ^ t ^ (t << s)
}

// The bits of a word, 8 by 8, with columns and rows exchanged.
fn turn(y: u64) -> u64
    ensures { result ≡ by_columns (bit y) }
{
    let ones = exchange(0x00AA_00AA_00AA_00AA, 7, y);
    let twos = exchange(0x0000_CCCC_0000_CCCC, 14, ones);
    exchange(0x0000_0000_F0F0_F0F0, 28, twos)
}

// The n words from place `to` on, each turned in its place: a loop of its own, of which the compiler
// takes two words at a time.
pub fn turn_row(words: &mut [u64], to: usize, n: usize)
    requires { to + n ≤ length words.old }
    ensures { RowAt to (turned_at words.old to) words.old n words.new }
{
    for word in &mut words[to..to + n] {
        *word = turn(*word);
    }
}
