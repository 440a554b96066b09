// The centre that a coarser level gives, the nine candidates around a centre, the two orders in which
// they are preferred, and the choice among their counts in any order of the nine.
#![tactic(auto)]

ghost use Rattle.std.specs.Prelude.{◌≡◌, ◌+◌, ◌<◌, ◌≤◌, length};
ghost use Rattle.rules.specs.Limits.{max_offset, max_centre};
ghost use Rattle.rules.specs.Levels.{order_of, Arrangement, arranged, added, candidate_at, step_of, Near};
ghost use Rattle.candidates.specs.Leading.{counts_by, Leading};

use rules::{Offset, Order};

// An order of the nine, the preferred candidate first: their places in Ward's order, each once. A rank
// is a place in it.
#[derive(Clone, Copy)]
pub struct Ranking {
    pub places: [usize; 9],
    pub ghost each_once: { Arrangement places },
}

// The order of the nine that a setting names.
pub fn places(order: Order) -> Ranking
    ensures { arranged result.places ≡ order_of order }
{
    let places = match order {
        Order::LeastMove => [4, 1, 7, 3, 5, 0, 2, 6, 8],
        Order::Ward => [0, 1, 2, 3, 4, 5, 6, 7, 8],
    };
    Ranking { places }
}

impl Ranking {
    // The rank of the first least of nine counts, which stand from place `at` on in Ward's order.
    pub fn first_least(&self, counts: &[u32], at: usize) -> usize
        requires { at + 9 ≤ length counts.now }
        ensures { Leading (counts_by counts.now at self.now.places) 9 result }
    {
        let mut best = 0;
        for k in 1..9 {
            if counts[at + self.places[k]] < counts[at + self.places[best]] {
                best = k;
            }
        }
        best
    }
}

// An offset of the next coarser level, at this one.
pub fn doubled(m: Offset) -> Offset
    requires { Near max_offset m }
    ensures { result ≡ added m m }
{
    Offset {
        dx: m.dx + m.dx,
        dy: m.dy + m.dy,
    }
}

// A step on an axis: -1, 0 or 1.
fn step(i: usize) -> i32
    ensures { result ≡ step_of i }
{
    match i {
        0 => -1,
        1 => 0,
        _ => 1,
    }
}

// Candidate k of the nine.
pub fn candidate(centre: Offset, k: usize) -> Offset
    requires k_bound { k < 9 }
    requires near { Near max_centre centre }
    ensures { result ≡ candidate_at centre k }
{
    let i = step(k / 3);
    let j = step(k % 3);
    Offset {
        dx: centre.dx + i,
        dy: centre.dy + j,
    }
}
