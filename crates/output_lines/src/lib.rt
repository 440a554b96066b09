// The printed lines, put into a buffer piece by piece. Each function answers the place after its text.
#![tactic(auto)]

ghost use Rattle.std.specs.Prelude.{◌≡◌, ◌++◌, ◌+◌, ◌*◌, ◌≤◌, length};
ghost use Rattle.output_lines.specs.Lines.{refused_text, signed, offset_text, counts_text, level_text, levels_text};
ghost use Rattle.output_lines.specs.Writes.{Wrote};

use rules::Offset;
use text::{put, put_number};

// `refused`, a 32 and the number.
pub fn put_refused(out: &mut [u8], n: u32) -> usize
    requires { 19 ≤ length out.old }
    ensures { Wrote 0 (refused_text n) out.old result out.new }
{
    let at = put(out, 0, b"refused ");
    let end = put_number(out, at, n);
    put(out, end, b"\n")
}

// A signed number, with `-` before it when negative.
fn put_signed(out: &mut [u8], at: usize, n: i32) -> usize
    requires { at + length (signed n) ≤ length out.old }
    ensures { Wrote at (signed n) out.old result out.new }
{
    if n < 0 {
        let next = put(out, at, b"-");
        return put_number(out, next, n.unsigned_abs());
    }
    put_number(out, at, n.unsigned_abs())
}

// The offset line.
fn put_offset(out: &mut [u8], dx: i32, dy: i32) -> usize
    requires { 31 ≤ length out.old }
    ensures { Wrote 0 (offset_text dx dy) out.old result out.new }
{
    let at = put(out, 0, b"offset ");
    let gap = put_signed(out, at, dx);
    let next = put(out, gap, b" ");
    let end = put_signed(out, next, dy);
    put(out, end, b"\n")
}

// A level's counts, each after a 32.
fn put_counts(out: &mut [u8], at: usize, counts: &[u32]) -> usize
    requires { at + length (counts_text counts.now) ≤ length out.old }
    ensures { Wrote at (counts_text counts.now) out.old result out.new }
{
    let mut next = at;
    for count in counts {
        let gap = put(out, next, b" ");
        next = put_number(out, gap, *count);
    }
    next
}

// A level's line: the number of halvings before the colon, the first nine counts after it.
fn put_level(out: &mut [u8], at: usize, halvings: u32, counts: &[u32]) -> usize
    requires in_bounds { 9 ≤ length counts.now }
    requires counts_in_bounds { at + length (level_text halvings counts.now) ≤ length out.old }
    ensures { Wrote at (level_text halvings counts.now) out.old result out.new }
{
    let colon = put_number(out, at, halvings);
    let next = put(out, colon, b":");
    let end = put_counts(out, next, &counts[..9]);
    put(out, end, b"\n")
}

// The lines of s + 1 levels, coarsest first.
fn put_levels(out: &mut [u8], at: usize, s: u32, counts: &[u32]) -> usize
    requires s_in_bounds { 9 * (s + 1) ≤ length counts.now }
    requires counts_in_bounds { at + length (levels_text s counts.now) ≤ length out.old }
    ensures { Wrote at (levels_text s counts.now) out.old result out.new }
{
    let next = put_level(out, at, s, counts);
    if s == 0 {
        return next;
    }
    put_levels(out, next, s - 1, &counts[9..])
}

// The offset line and the lines of the levels.
pub fn put_aligned(out: &mut [u8], s: u32, offset: Offset, counts: &[u32]) -> usize
    requires s_bound { s ≤ 8 }
    requires s_in_bounds { 9 * (s + 1) ≤ length counts.now }
    requires in_bounds { 949 ≤ length out.old }
    ensures { Wrote 0 (offset_text offset.dx offset.dy ++ levels_text s counts.now) out.old result out.new }
{
    let at = put_offset(out, offset.dx, offset.dy);
    put_levels(out, at, s, counts)
}
