// One pair of a series: the grey of its second frame, its alignment, and its offset kept.
#![tactic(auto)]

ghost use Rattle.std.specs.Prelude.{◌≡◌, length};
ghost use Rattle.rules.specs.Levels.{arranged};
ghost use Rattle.next_pair.specs.PairRuns.{place_of, Stands, pair_at, Room, Ran};

use align::align_frames;
use candidates::Ranking;
use grey::conversion::convert;
use offsets::put_offset;
use popcount::table::BitCounts;
use rules::Setup;

// Frame k's place in the lent grey memory. The next frame's is the other one, so each frame's grey
// is worked out once, and stays while it is its neighbour's turn.
#[tactic(auto, unfolding(crate::specs::PairRuns::place_of))]
fn place(k: usize, area: usize) -> usize
    ensures { result ≡ place_of k area }
{
    if k % 2 == 0 { 0 } else { area }
}

// Aligns frames k and k + 1, of which frame k's grey stands in its place already.
pub fn align_next(
    setup: Setup,
    k: usize,
    rasters: &[u8],
    pairs: &mut [i32],
    counts: &mut [u32],
    compared: &mut [u32],
    grey: &mut [u8],
    words: &mut [u64],
    order: &Ranking,
    table: &BitCounts,
)
    requires room { Room setup k (length rasters.now) (length pairs.old) (length counts.old) (length compared.old) (length grey.old) (length words.old) }
    requires stands { Stands setup rasters.now k grey.old }
    ensures { Ran setup k rasters.now (pair_at (arranged order.now.places) setup rasters.now k)
        pairs.old pairs.new counts.old counts.new
        compared.old compared.new grey.new }
{
    let area = setup.w * setup.h;
    let first = place(k, area);
    let second = place(k + 1, area);
    let from = (k + 1) * (3 * area);
    convert(&rasters[from..], area, grey, second);
    let at = k * (9 * (setup.s as usize + 1));
    let m = align_frames(
        grey, first, second, setup, words, counts, compared, at, order, table,
    );
    put_offset(pairs, k, m);
}
