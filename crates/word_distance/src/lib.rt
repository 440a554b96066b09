// How far a move goes in packed words: whole words, and bits beyond them. It is worked out once a call,
// and rows are moved by these two numbers alone. Moves are counted from the least signed number, which
// is a multiple of 64, so that both round down for moves to the left too.
#![tactic(auto)]

ghost use Rattle.std.specs.Prelude.{◌≡◌, ◌/◌, ◌%◌};
ghost use Rattle.rules.specs.Limits.{word_bits};

pub fn quotient(d: usize) -> usize
    ensures { result ≡ d / word_bits }
{
    d / 64
}

pub fn remainder(d: usize) -> usize
    ensures { result ≡ d % word_bits }
{
    d % 64
}
