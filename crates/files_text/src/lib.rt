// The text that `bracket` prints for two files.
#![tactic(auto)]

ghost use Rattle.std.specs.Prelude.{◌≡◌};
ghost use Rattle.files_text.specs.FilesText.{files_text, files_align};
ghost use Rattle.files_text.specs.PairTexts.{pair_text, pair_aligns, raster_of_size, Printed};

use output_lines::{put_aligned, put_refused};
use ppm_read::{Size, p6_raster, p6_size};

// The memory that is lent: work memory for the pair, and room for the longest output, of 949 bytes.
pub const GREY_LENT: usize = 65536;

pub const WORDS_LENT: usize = 8192;

pub const OUTPUT_LENT: usize = 1024;

// Counts for the most levels that there can be, and as many compared numbers, which are not printed.
const MAX_COUNTS: usize = 81;

// The second file's raster as the pair call gets it. A frame of another size than the first one's
// counts as an input of the wrong length: no bytes.
fn raster_of_size(first: Size, second: Size, file: &[u8]) -> &[u8]
    ensures { result.now ≡ raster_of_size first second file.now }
{
    if first.w != second.w {
        return &file[..0];
    }
    if first.h != second.h {
        return &file[..0];
    }
    p6_raster(file)
}

// The text for a pair of rasters.
fn put_pair(
    size: Size,
    s: u32,
    tolerance: u32,
    percentile: u32,
    first: &[u8],
    second: &[u8],
    grey: &mut [u8; GREY_LENT],
    words: &mut [u64; WORDS_LENT],
    out: &mut [u8; OUTPUT_LENT],
) -> usize
    ensures { Printed (pair_aligns size s tolerance percentile first.now second.now)
        (pair_text size s tolerance percentile first.now second.now)
        grey.old grey.new words.old words.new out.old result out.new }
{
    let mut counts = [0u32; MAX_COUNTS];
    let mut compared = [0u32; MAX_COUNTS];
    let answer = pair::pair_ward(
        size.w,
        size.h,
        s,
        tolerance,
        percentile,
        first,
        second,
        &mut counts,
        &mut compared,
        grey,
        words,
    );
    match answer {
        Err(refusal) => put_refused(out, u32::from(refusal)),
        Ok(offset) => put_aligned(out, s, offset, &counts),
    }
}

// The text for two files: the first one's refusal, else the second one's, else the pair's.
pub fn put_files(
    s: u32,
    tolerance: u32,
    percentile: u32,
    first: &[u8],
    second: &[u8],
    grey: &mut [u8; GREY_LENT],
    words: &mut [u64; WORDS_LENT],
    out: &mut [u8; OUTPUT_LENT],
) -> usize
    ensures { Printed (files_align s tolerance percentile first.now second.now)
        (files_text s tolerance percentile first.now second.now)
        grey.old grey.new words.old words.new out.old result out.new }
{
    let held1 = p6_size(first);
    let held2 = p6_size(second);
    match held1 {
        Err(refusal) => put_refused(out, u32::from(refusal)),
        Ok(one) => match held2 {
            Err(refusal) => put_refused(out, u32::from(refusal)),
            Ok(two) => put_pair(
                one,
                s,
                tolerance,
                percentile,
                p6_raster(first),
                raster_of_size(one, two, second),
                grey,
                words,
                out,
            ),
        },
    }
}
