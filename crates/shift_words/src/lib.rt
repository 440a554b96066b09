// The words of a packed bitmap moved sideways from one memory into another: their interior words in one
// run, and some columns of words of all rows.
#![tactic(auto)]

ghost use Rattle.std.specs.Prelude.{◌≡◌, ◌+◌, ◌*◌, ◌≤◌, ◌<◌, length};
ghost use Rattle.rules.specs.Buffers.{FrameAt};
ghost use Rattle.shift_words.specs.MovedParts.{moved_rows, Columns, Interiors};
ghost use Rattle.shift_words.specs.Runs.{RunIn, RunAt};

use words::BIAS_WORDS;
use words::moves::{Move, clipped_word, joined_word};

// Word k of every row. What it is made of is the same for all rows, so the compiler takes most of the
// tests out of the loop.
fn move_column(src: &[u64], from: usize, dst: &mut [u64], to: usize, m: Move, h: usize, k: usize)
    requires here { k < m.n }
    requires source { from + m.n * h ≤ length src.now }
    requires room { to + m.n * h ≤ length dst.old }
    ensures { Columns to m.n (moved_rows src.now from m) k (k + 1) dst.old h dst.new }
{
    for y in 0..h {
        let row = y * m.n;
        dst[to + (row + k)] = clipped_word(src, from + row, m, k);
    }
}

// The words from `first` up to `end` of every row.
fn move_columns(
    src: &[u64],
    from: usize,
    dst: &mut [u64],
    to: usize,
    m: Move,
    h: usize,
    first: usize,
    end: usize,
)
    requires span { (first ≤ end) × (end ≤ m.n) }
    requires source { from + m.n * h ≤ length src.now }
    requires room { to + m.n * h ≤ length dst.old }
    ensures { Columns to m.n (moved_rows src.now from m) first end dst.old h dst.new }
{
    for k in first..end {
        move_column(src, from, dst, to, m, h, k);
    }
}

// The words from `first` up to `end` of all rows taken as one, among its interior words. The words
// between two rows' interiors are written too, and are still wrong after it. Two words are joined, with
// no test and no mask.
fn join_run(
    src: &[u64],
    from: usize,
    dst: &mut [u64],
    to: usize,
    m: Move,
    h: usize,
    first: usize,
    end: usize,
)
    requires { RunIn m h first end from (length src.now) to (length dst.old) }
    ensures { RunAt src.now from m h to first end dst.old dst.new }
{
    for k in first..end {
        let j = from + k + BIAS_WORDS - m.q;
        dst[to + k] = joined_word(src[j], src[j - 1], m.r);
    }
}

// The same of a move by whole words alone, as by 0, at the speed of a copy.
fn copy_run(
    src: &[u64],
    from: usize,
    dst: &mut [u64],
    to: usize,
    m: Move,
    h: usize,
    first: usize,
    end: usize,
)
    requires run { RunIn m h first end from (length src.now) to (length dst.old) }
    requires bits { m.r ≡ 0 }
    ensures { RunAt src.now from m h to first end dst.old dst.new }
{
    let j = from + first + BIAS_WORDS - m.q;
    let source = &src[j..j + (end - first)];
    dst[to + first..to + end].copy_from_slice(source);
}

// The same of any move.
fn move_run(
    src: &[u64],
    from: usize,
    dst: &mut [u64],
    to: usize,
    m: Move,
    h: usize,
    first: usize,
    end: usize,
)
    requires { RunIn m h first end from (length src.now) to (length dst.old) }
    ensures { RunAt src.now from m h to first end dst.old dst.new }
{
    if m.r == 0 {
        copy_run(src, from, dst, to, m, h, first, end);
        return;
    }
    join_run(src, from, dst, to, m, h, first, end);
}

// The interior words of all rows, if there are any. All but at most one go in a run that begins at an
// even place: the compiler writes two words at a time, and where memory is aligned to both of them they
// never cross a line of the cache.
fn move_interiors(src: &[u64], from: usize, dst: &mut [u64], to: usize, m: Move, h: usize)
    requires source { from + m.n * h ≤ length src.now }
    requires room { to + m.n * h ≤ length dst.old }
    ensures { Interiors to h m (moved_rows src.now from m) dst.old dst.new }
{
    if h == 0 {
        return;
    }
    if m.first == m.end {
        return;
    }
    let even = m.first + (to + m.first) % 2;
    move_run(src, from, dst, to, m, h, m.first, even);
    move_run(src, from, dst, to, m, h, even, (h - 1) * m.n + m.end);
}

// The h rows from place `from` of one memory on, moved sideways, written from place `to` of the other on.
pub fn move_rows(src: &[u64], from: usize, dst: &mut [u64], to: usize, m: Move, h: usize)
    requires source { from + m.n * h ≤ length src.now }
    requires room { to + m.n * h ≤ length dst.old }
    ensures { FrameAt to m.n (moved_rows src.now from m) dst.old h dst.new }
{
    move_interiors(src, from, dst, to, m, h);
    move_columns(src, from, dst, to, m, h, 0, m.first);
    move_columns(src, from, dst, to, m, h, m.end, m.n);
}
