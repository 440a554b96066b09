// The tests of single pixels, as flags in an array that the compiler fills many at a time.
#![tactic(auto)]

ghost use Rattle.std.specs.Prelude.{◌≡◌, ◌+◌, ◌*◌, ◌≤◌, length};
ghost use Rattle.flags.specs.Flags.{outside_bit, flag_at, Weighed};

// The weight that a flag is held as, bit i / 8. A row takes it once into a local and lends it down:
// an index into the constant itself would copy it.
pub const WEIGHTS: [u8; 64] = [
    1, 1, 1, 1, 1, 1, 1, 1, 2, 2, 2, 2, 2, 2, 2, 2, 4, 4, 4, 4, 4, 4, 4, 4, 8, 8, 8, 8, 8, 8, 8, 8,
    16, 16, 16, 16, 16, 16, 16, 16, 32, 32, 32, 32, 32, 32, 32, 32, 64, 64, 64, 64, 64, 64, 64, 64,
    128, 128, 128, 128, 128, 128, 128, 128,
];

// The weight where a grey value lies outside lo..hi, both included, else 0. One test for both ends:
// counted on from lo, round at 256, the values of the interval come first.
#[tactic(auto, using(crate::proofs::FlagLaws::outside_tests))]
fn outside_weight(g: u8, lo: u8, hi: u8, weight: u8) -> u8
    requires { lo ≤ hi }
    ensures { result ≡ outside_bit lo hi g * weight }
{
    let place = (g as u32 + (256 - lo as u32)) % 256;
    if ((hi - lo) as u32) < place {
        return weight;
    }
    0
}

// The flags of the n pixels from place `at` on, and 0 past them.
pub fn flags_of(grey: &[u8], at: usize, n: usize, lo: u8, hi: u8, weights: &[u8; 64]) -> [u8; 64]
    requires { (n ≤ 64) × (at + n ≤ length grey.now) × (lo ≤ hi) × Weighed (λ i. 1) weights.now }
    ensures { Weighed (flag_at lo hi grey.now at n) result }
{
    let mut flags = [0u8; 64];
    for i in 0..n {
        flags[i] = outside_weight(grey[at + i], lo, hi, weights[i]);
    }
    flags
}
