// 64 flags gathered into a word with no step for a single flag: eight words of eight flags, each held
// as its weight, laid over each other are the flags as 8 by 8 bits by columns.

ghost use Rattle.std.specs.Prelude.{◌≡◌, [], ◌∷◌, ℕ, ◌+◌, ◌≤◌, get_or};
ghost use Rattle.gather.specs.Gathers.{Bytes, by_columns};
ghost use Rattle.flags.specs.Flags.{Weighed};

// The word of eight bytes, the lowest first. (With `|` and `<<` the compiler sees one load.)
fn join(a: u8, b: u8, c: u8, d: u8, e: u8, f: u8, g: u8, h: u8) -> u64
    ensures { Bytes 8 (λ k. get_or (a ∷ b ∷ c ∷ d ∷ e ∷ f ∷ g ∷ h ∷ []) k 0) result }
{
    a as u64
        | ((b as u64) << 8)
        | ((c as u64) << 16)
        | ((d as u64) << 24)
        | ((e as u64) << 32)
        | ((f as u64) << 40)
        | ((g as u64) << 48)
        | ((h as u64) << 56)
}

// The word of the eight flags from place `at` on, one a byte.
fn eight_flags(flags: &[u8; 64], at: usize) -> u64
    requires { at + 8 ≤ 64 }
    ensures { Bytes 8 (λ k. get_or flags.now (at + k) 0) result }
{
    join(
        flags[at],
        flags[at + 1],
        flags[at + 2],
        flags[at + 3],
        flags[at + 4],
        flags[at + 5],
        flags[at + 6],
        flags[at + 7],
    )
}

// The word of 64 flags by columns.
pub fn gather_columns(flags: &[u8; 64]) -> u64
    ensures { (f : ℕ → ℕ) → Weighed f flags.now → result ≡ by_columns f }
{
    eight_flags(flags, 0)
        | eight_flags(flags, 8)
        | eight_flags(flags, 16)
        | eight_flags(flags, 24)
        | eight_flags(flags, 32)
        | eight_flags(flags, 40)
        | eight_flags(flags, 48)
        | eight_flags(flags, 56)
}
