// The second smallest of four grey values, and a block of 32 of them: it goes through one small local array
// in loops without a branch, which the compiler takes many bytes at a time.
#![tactic(auto)]

ghost use Rattle.std.specs.Prelude.{◌≡◌, ◌+◌, ◌≤◌, min, max, length};
ghost use Rattle.rules.specs.Greys.{second_smallest};
ghost use Rattle.rules.specs.Buffers.{RowAt, Filled};
ghost use Rattle.half_block.specs.HalfPlaces.{second_at, even_at};

// The second smallest, given the smaller and the larger of each of two pairs.
fn second(low1: u8, low2: u8, high1: u8, high2: u8) -> u8
    ensures { result ≡ min (max low1 low2) (min high1 high2) }
{
    low1.max(low2).min(high1.min(high2))
}

pub fn second_smallest(a: u8, b: u8, c: u8, d: u8) -> u8
    ensures { result ≡ second_smallest a b c d }
{
    second(a.min(c), b.min(d), a.max(c), b.max(d))
}

// The second smallest of each of 64 neighbouring columns of two rows and the column right of it,
// unwanted ones too: a step of one keeps the loop plain, and `store_block` picks. The last column's
// neighbour is one byte more than 32 results need.
#[tactic(auto, unfolding(crate::specs::HalfPlaces::second_at), using(rules::proofs::FilledLaws::filled_more))]
pub fn seconds(src: &[u8], top: usize, bottom: usize) -> [u8; 64]
    requires top_in_bounds { top + 65 ≤ length src.now }
    requires bottom_in_bounds { bottom + 65 ≤ length src.now }
    ensures { Filled (second_at src.now top bottom) 64 result }
{
    let mut all = [0u8; 64];
    for k in 0..64 {
        all[k] = second_smallest(
            src[top + k],
            src[top + k + 1],
            src[bottom + k],
            src[bottom + k + 1],
        );
    }
    all
}

// A block's 32 results, every other one of `all`, written from place `to` on.
#[tactic(auto, unfolding(crate::specs::HalfPlaces::even_at), using(rules::proofs::FrameLaws::row_more))]
pub fn store_block(all: &[u8; 64], dst: &mut [u8], to: usize)
    requires { to + 32 ≤ length dst.old }
    ensures { RowAt to (even_at all.now) dst.old 32 dst.new }
{
    for k in 0..32 {
        dst[to + k] = all[2 * k];
    }
}
