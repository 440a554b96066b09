// What the program `bracket` prints, from what it has read: the offered call.
#![tactic(auto)]

ghost use Rattle.std.specs.Prelude.{◌≡◌};
ghost use Rattle.report.specs.Output.{as_read, BracketCall};

use files_text::{GREY_LENT, OUTPUT_LENT, WORDS_LENT, put_files};
use settings_line::settings_of;

// The most bytes of a file that counts.
pub const MAX_FILE: usize = 65536;

// The bytes of a file as it counts: a longer one counts as empty.
fn as_read(file: &[u8]) -> &[u8]
    ensures { result.now ≡ as_read file.now }
{
    if MAX_FILE < file.len() {
        return &file[..0];
    }
    file
}

// All that `bracket` prints, into the beginning of `out`; the answer is the number of bytes.
pub fn report(
    input: &[u8],
    first: &[u8],
    second: &[u8],
    grey: &mut [u8; GREY_LENT],
    words: &mut [u64; WORDS_LENT],
    out: &mut [u8; OUTPUT_LENT],
) -> usize
    ensures { BracketCall input.now first.now second.now grey.old grey.new
        words.old words.new out.old out.new result }
{
    let Some(settings) = settings_of(input) else {
        return text::put(out, 0, b"settings\n");
    };
    put_files(
        settings.s,
        settings.tolerance,
        settings.percentile,
        as_read(first),
        as_read(second),
        grey,
        words,
        out,
    )
}
