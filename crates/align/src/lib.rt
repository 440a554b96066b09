// The recursive alignment of two grey frames that stand in lent memory.
#![tactic(auto)]

ghost use Rattle.std.specs.Prelude.{◌+◌, ◌*◌, ◌≤◌, length};
ghost use Rattle.rules.specs.Bitmaps.{row_words};
ghost use Rattle.rules.specs.Levels.{arranged};
ghost use Rattle.align.specs.Aligns.{Frames, Aligns};

use candidates::{Ranking, doubled};
use level::align_level;
use popcount::table::BitCounts;
use pyramid::halve_within;
use rules::{Offset, Setup};

// The counts of nine candidates on nine levels, the most that a pair has.
pub const MOST_COUNTS: usize = 81;

// Aligns the grey frames that stand at `first` and at `second` of the lent memory, one of them at its
// beginning and one right after it. Each coarser level is written into the remainder.
pub fn align_frames(
    grey: &mut [u8],
    first: usize,
    second: usize,
    setup: Setup,
    words: &mut [u64],
    counts: &mut [u32],
    compared: &mut [u32],
    at: usize,
    order: &Ranking,
    table: &BitCounts,
) -> Offset
    requires frames { Frames first second setup (length grey.old) }
    requires room { 6 * (row_words setup.w * setup.h) ≤ length words.old }
    requires levels { (at + 9 * (setup.s + 1) ≤ length counts.old) × (at + 9 * (setup.s + 1) ≤ length compared.old) }
    ensures { Aligns (arranged order.now.places) setup first second at
        grey.old grey.new counts.old counts.new compared.old compared.new result }
{
    let Setup { w, h, s, .. } = setup;
    if s == 0 {
        let origin = Offset { dx: 0, dy: 0 };
        return align_level(
            grey, first, second, setup, words, origin, counts, compared, at, order, table,
        );
    }
    let rest = 2 * (w * h);
    let quarter = (w / 2) * (h / 2);
    halve_within(grey, first, w, h, rest);
    halve_within(grey, second, w, h, rest + quarter);
    let half = Setup {
        w: w / 2,
        h: h / 2,
        s: s - 1,
        ..setup
    };
    let coarse = align_frames(
        &mut grey[rest..],
        0,
        quarter,
        half,
        words,
        counts,
        compared,
        at,
        order,
        table,
    );
    let centre = doubled(coarse);
    let place = at + 9 * (s as usize);
    let aligned = align_level(
        grey, first, second, setup, words, centre, counts, compared, place, order, table,
    );
    aligned
}
