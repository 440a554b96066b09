// The core of a series call: its pairs aligned, and their offsets summed about the reference.

ghost use Rattle.std.specs.Prelude.{◌≡◌, length};
ghost use Rattle.rules.specs.Frames.{written_over};
ghost use Rattle.rules.specs.Accepted.{SeriesOk};
ghost use Rattle.rules.specs.Levels.{arranged};
ghost use Rattle.rules.specs.Series.{series_answer};
ghost use Rattle.series_in_order.specs.Settings.{settings_of};

use candidates::Ranking;
use offsets::frame_offsets;
use rules::Setup;
use series_pairs::align_pairs;

// Two numbers for each pair of the longest series.
const PAIR_NUMBERS: usize = 30;

// The offsets of the frames, and the counts and compared numbers of the pairs, candidates being preferred
// in the given order.
pub fn align_series(
    setup: Setup,
    n: usize,
    r: usize,
    percentiles: &[u32],
    rasters: &[u8],
    offsets: &mut [i32],
    counts: &mut [u32],
    compared: &mut [u32],
    grey: &mut [u8],
    words: &mut [u64],
    order: &Ranking,
)
    requires accepted { SeriesOk setup.w setup.h setup.s setup.exclusion n r percentiles.now
        (length rasters.now) (length offsets.old) (length counts.old) (length compared.old) (length grey.old) (length words.old) }
    ensures offsets { offsets.new
        ≡ written_over (series_answer (arranged order.now.places) (settings_of setup n r percentiles.now) rasters.now).offsets offsets.old }
    ensures counts { counts.new
        ≡ written_over (series_answer (arranged order.now.places) (settings_of setup n r percentiles.now) rasters.now).counts counts.old }
    ensures compared { compared.new
        ≡ written_over (series_answer (arranged order.now.places) (settings_of setup n r percentiles.now) rasters.now).compared compared.old }
{
    let mut pairs = [0i32; PAIR_NUMBERS];
    align_pairs(
        setup,
        n,
        percentiles,
        rasters,
        &mut pairs,
        counts,
        compared,
        grey,
        words,
        order,
    );
    frame_offsets(&pairs, n, r, offsets);
}
