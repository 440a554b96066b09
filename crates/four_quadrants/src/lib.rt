// The core of the quadrants call: each quadrant in turn, in the same work memory.
#![tactic(auto)]

ghost use Rattle.std.specs.Prelude.{◌≡◌, [], ◌∷◌, ◌+◌, ◌*◌, ◌≤◌, length};
ghost use Rattle.rules.specs.Frames.{written_over};
ghost use Rattle.rules.specs.Levels.{arranged};
ghost use Rattle.offsets.specs.PairOffsets.{pair_offset, SmallPairs};
ghost use Rattle.rotation.specs.Turns.{turned};
ghost use Rattle.quadrant_refusals.specs.QuadrantRefusals.{numbers_needed, QuadrantsOk};
ghost use Rattle.four_quadrants.specs.FourOffsets.{four_offsets, coordinates};

use candidates::Ranking;
use crop::Quadrant;
use offsets::put_offset;
use quadrant::align_quadrant;
use rotation::turned;
use rules::{Offset, Setup};

// Offset k of a list.
fn offset_at(offsets: &[i32], k: usize) -> Offset
    requires { 2 * k + 2 ≤ length offsets.now }
    ensures { result ≡ pair_offset offsets.now k }
{
    Offset {
        dx: offsets[2 * k],
        dy: offsets[2 * k + 1],
    }
}

// Whether two of the four offsets of a list differ.
fn four_turned(offsets: &[i32]) -> bool
    requires room { numbers_needed ≤ length offsets.now }
    requires near { SmallPairs 4 offsets.now }
    ensures { result
        ≡ turned (pair_offset offsets.now 0
        ∷ pair_offset offsets.now 1
        ∷ pair_offset offsets.now 2
        ∷ pair_offset offsets.now 3
        ∷ []) }
{
    let a = offset_at(offsets, 0);
    let b = offset_at(offsets, 1);
    let c = offset_at(offsets, 2);
    let d = offset_at(offsets, 3);
    turned(a, b, c, d)
}

// Writes the offsets of the four quadrants, candidates being preferred in the given order.
fn align_each(
    setup: Setup,
    first: &[u8],
    second: &[u8],
    offsets: &mut [i32],
    grey: &mut [u8],
    words: &mut [u64],
    order: &Ranking,
)
    requires accepted { QuadrantsOk setup.w setup.h setup.s setup.exclusion setup.percentile
        (length first.now) (length second.now) (length grey.old) (length words.old) }
    requires room { numbers_needed ≤ length offsets.old }
    ensures { offsets.new
        ≡ written_over (coordinates (four_offsets (arranged order.now.places) setup first.now second.now)) offsets.old }
{
    let quadrants = [
        Quadrant::UpperLeft,
        Quadrant::UpperRight,
        Quadrant::LowerLeft,
        Quadrant::LowerRight,
    ];
    for (k, quadrant) in quadrants.iter().enumerate() {
        let m = align_quadrant(setup, *quadrant, first, second, grey, words, order);
        put_offset(offsets, k, m);
    }
}

// Writes the four offsets, and says whether two of them differ.
pub fn align_quadrants(
    setup: Setup,
    first: &[u8],
    second: &[u8],
    offsets: &mut [i32],
    grey: &mut [u8],
    words: &mut [u64],
    order: &Ranking,
) -> bool
    requires accepted { QuadrantsOk setup.w setup.h setup.s setup.exclusion setup.percentile
        (length first.now) (length second.now) (length grey.old) (length words.old) }
    requires room { numbers_needed ≤ length offsets.old }
    ensures turned { result ≡ turned (four_offsets (arranged order.now.places) setup first.now second.now) }
    ensures offsets { offsets.new
        ≡ written_over (coordinates (four_offsets (arranged order.now.places) setup first.now second.now)) offsets.old }
{
    align_each(setup, first, second, offsets, grey, words, order);
    four_turned(offsets)
}
