// Alignment of pairs, quadrants and series, and the work memory that it needs. A C function's number n stands for
// the answer that a call gives: accepted where it is 0, else refused with it.

ghost use Rattle.std.specs.Prelude.{◌≡◌};
ghost use Rattle.rules.specs.Answers.{answer_for, written};
ghost use Rattle.rules.specs.Levels.{ward_order, least_move_order};
ghost use Rattle.rules.specs.Calls.{tolerance_setup, band_setup, PairCall, tolerance_settings, band_settings, SeriesCall};
ghost use Rattle.rules.specs.Refusals.{shape_refusal, grey_needed, words_needed};
ghost use Rattle.quadrants.specs.QuadrantsCalls.{QuadrantsCall};
ghost use Rattle.c_answers.specs.Values.{value_after, offset};

use c_answers::{moved_into, refusal_in, value_into};
use pair::{pair, pair_ward};
use pair_band::pair_band;
use quadrants::quadrants;
use series::{series, series_ward};
use series_band::series_band;
use work_memory::{grey_memory, shape_refusal, word_memory};

#[unsafe(no_mangle)]
pub extern "C" fn mtb_pair(
    w: u32,
    h: u32,
    s: u32,
    tolerance: u32,
    percentile: u32,
    first: &[u8],
    second: &[u8],
    dx: &mut i32,
    dy: &mut i32,
    counts: &mut [u32],
    compared: &mut [u32],
    grey: &mut [u8],
    words: &mut [u64],
) -> u32
    ensures call { PairCall least_move_order (tolerance_setup w h s tolerance percentile) first.now second.now
        counts.old counts.new compared.old compared.new
        grey.old grey.new words.old words.new
        (answer_for result (offset dx.new dy.new)) }
    ensures refused { (result ≡ 0 → ⊥) → (dx.new ≡ dx.old) × (dy.new ≡ dy.old) }
{
    let answer = pair(
        w as usize, h as usize, s, tolerance, percentile, first, second, counts, compared, grey,
        words,
    );
    moved_into(answer, dx, dy)
}

#[unsafe(no_mangle)]
pub extern "C" fn mtb_series(
    w: u32,
    h: u32,
    s: u32,
    tolerance: u32,
    n: u32,
    r: u32,
    percentiles: &[u32],
    rasters: &[u8],
    offsets: &mut [i32],
    counts: &mut [u32],
    compared: &mut [u32],
    grey: &mut [u8],
    words: &mut [u64],
) -> u32
    ensures { SeriesCall least_move_order (tolerance_settings w h s tolerance n r percentiles.now) rasters.now
        offsets.old offsets.new counts.old counts.new compared.old compared.new
        grey.old grey.new words.old words.new (written result) }
{
    refusal_in(series(
        w as usize,
        h as usize,
        s,
        tolerance,
        n as usize,
        r as usize,
        percentiles,
        rasters,
        offsets,
        counts,
        compared,
        grey,
        words,
    ))
}

#[unsafe(no_mangle)]
pub extern "C" fn mtb_pair_ward(
    w: u32,
    h: u32,
    s: u32,
    tolerance: u32,
    percentile: u32,
    first: &[u8],
    second: &[u8],
    dx: &mut i32,
    dy: &mut i32,
    counts: &mut [u32],
    compared: &mut [u32],
    grey: &mut [u8],
    words: &mut [u64],
) -> u32
    ensures call { PairCall ward_order (tolerance_setup w h s tolerance percentile) first.now second.now
        counts.old counts.new compared.old compared.new
        grey.old grey.new words.old words.new
        (answer_for result (offset dx.new dy.new)) }
    ensures refused { (result ≡ 0 → ⊥) → (dx.new ≡ dx.old) × (dy.new ≡ dy.old) }
{
    let answer = pair_ward(
        w as usize, h as usize, s, tolerance, percentile, first, second, counts, compared, grey,
        words,
    );
    moved_into(answer, dx, dy)
}

#[unsafe(no_mangle)]
pub extern "C" fn mtb_series_ward(
    w: u32,
    h: u32,
    s: u32,
    tolerance: u32,
    n: u32,
    r: u32,
    percentiles: &[u32],
    rasters: &[u8],
    offsets: &mut [i32],
    counts: &mut [u32],
    compared: &mut [u32],
    grey: &mut [u8],
    words: &mut [u64],
) -> u32
    ensures { SeriesCall ward_order (tolerance_settings w h s tolerance n r percentiles.now) rasters.now
        offsets.old offsets.new counts.old counts.new compared.old compared.new
        grey.old grey.new words.old words.new (written result) }
{
    refusal_in(series_ward(
        w as usize,
        h as usize,
        s,
        tolerance,
        n as usize,
        r as usize,
        percentiles,
        rasters,
        offsets,
        counts,
        compared,
        grey,
        words,
    ))
}

#[unsafe(no_mangle)]
pub extern "C" fn mtb_pair_band(
    w: u32,
    h: u32,
    s: u32,
    band: u32,
    percentile: u32,
    first: &[u8],
    second: &[u8],
    dx: &mut i32,
    dy: &mut i32,
    counts: &mut [u32],
    compared: &mut [u32],
    grey: &mut [u8],
    words: &mut [u64],
) -> u32
    ensures call { PairCall least_move_order (band_setup w h s band percentile) first.now second.now
        counts.old counts.new compared.old compared.new
        grey.old grey.new words.old words.new
        (answer_for result (offset dx.new dy.new)) }
    ensures refused { (result ≡ 0 → ⊥) → (dx.new ≡ dx.old) × (dy.new ≡ dy.old) }
{
    let answer = pair_band(
        w as usize, h as usize, s, band, percentile, first, second, counts, compared, grey, words,
    );
    moved_into(answer, dx, dy)
}

#[unsafe(no_mangle)]
pub extern "C" fn mtb_series_band(
    w: u32,
    h: u32,
    s: u32,
    band: u32,
    n: u32,
    r: u32,
    percentiles: &[u32],
    rasters: &[u8],
    offsets: &mut [i32],
    counts: &mut [u32],
    compared: &mut [u32],
    grey: &mut [u8],
    words: &mut [u64],
) -> u32
    ensures { SeriesCall least_move_order (band_settings w h s band n r percentiles.now) rasters.now
        offsets.old offsets.new counts.old counts.new compared.old compared.new
        grey.old grey.new words.old words.new (written result) }
{
    refusal_in(series_band(
        w as usize,
        h as usize,
        s,
        band,
        n as usize,
        r as usize,
        percentiles,
        rasters,
        offsets,
        counts,
        compared,
        grey,
        words,
    ))
}

#[unsafe(no_mangle)]
pub extern "C" fn mtb_quadrants(
    w: u32,
    h: u32,
    s: u32,
    tolerance: u32,
    percentile: u32,
    first: &[u8],
    second: &[u8],
    offsets: &mut [i32],
    turned: &mut bool,
    grey: &mut [u8],
    words: &mut [u64],
) -> u32
    ensures call { QuadrantsCall least_move_order (tolerance_setup w h s tolerance percentile) first.now second.now
        offsets.old offsets.new grey.old grey.new words.old words.new
        (answer_for result turned.new) }
    ensures refused { (result ≡ 0 → ⊥) → turned.new ≡ turned.old }
{
    let answer = quadrants(
        w as usize, h as usize, s, tolerance, percentile, first, second, offsets, grey, words,
    );
    value_into(answer, turned)
}

// The bytes of grey work memory; 0 when the sizes or s are refused.
#[unsafe(no_mangle)]
pub extern "C" fn mtb_grey_needed(w: u32, h: u32, s: u32) -> usize
    ensures { result ≡ value_after (shape_refusal w h s) (grey_needed s w h) 0 }
{
    match shape_refusal(w as usize, h as usize, s) {
        Ok(()) => grey_memory(w as usize, h as usize, s),
        Err(_) => 0,
    }
}

// The 64-bit words of word work memory; 0 when the sizes or s are refused.
#[unsafe(no_mangle)]
pub extern "C" fn mtb_words_needed(w: u32, h: u32, s: u32) -> usize
    ensures { result ≡ value_after (shape_refusal w h s) (words_needed w h) 0 }
{
    match shape_refusal(w as usize, h as usize, s) {
        Ok(()) => word_memory(w as usize, h as usize),
        Err(_) => 0,
    }
}
