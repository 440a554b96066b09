// The core of a pair call: both rasters' grey frames in the lent memory, aligned.

ghost use Rattle.std.specs.Prelude.{◌≡◌, length};
ghost use Rattle.rules.specs.Frames.{written_over};
ghost use Rattle.rules.specs.Accepted.{PairOk};
ghost use Rattle.rules.specs.Levels.{arranged};
ghost use Rattle.rules.specs.Calls.{pair_result};

use align::align_frames;
use candidates::Ranking;
use grey::conversion::convert;
use popcount::table::BitCounts;
use rules::{Offset, Setup};

// The offset of two rasters, candidates being preferred in the given order; the counts and compared
// numbers go into their buffers.
pub fn align_rasters(
    setup: Setup,
    first: &[u8],
    second: &[u8],
    counts: &mut [u32],
    compared: &mut [u32],
    grey: &mut [u8],
    words: &mut [u64],
    order: &Ranking,
) -> Offset
    requires accepted { PairOk setup.w setup.h setup.s setup.exclusion setup.percentile
        (length first.now) (length second.now) (length counts.old) (length compared.old) (length grey.old) (length words.old) }
    ensures offset { result ≡ (pair_result (arranged order.now.places) setup first.now second.now).offset }
    ensures counts { counts.new
        ≡ written_over (pair_result (arranged order.now.places) setup first.now second.now).counts counts.old }
    ensures compared { compared.new
        ≡ written_over (pair_result (arranged order.now.places) setup first.now second.now).compared compared.old }
{
    let area = setup.w * setup.h;
    convert(first, area, grey, 0);
    convert(second, area, grey, area);
    let table = BitCounts::new();
    align_frames(
        grey, 0, area, setup, words, counts, compared, 0, order, &table,
    )
}
