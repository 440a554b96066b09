// The rows of a shifted bitmap, from the move's quotient and remainder alone. Rows are counted from a bias,
// so that one formula serves both directions.
#![tactic(auto)]

ghost use Rattle.std.specs.Prelude.{◌+◌, ◌*◌, ◌≤◌, length};
ghost use Rattle.rules.specs.Buffers.{RowAt, FrameAt};
ghost use Rattle.shift_words.specs.MovedParts.{moved_rows};
ghost use Rattle.shift_rows.specs.ShiftPlaces.{blank, placed_rows, Sized};

use shift_words::move_rows;
use words::BIAS;
use words::moves::Move;

// The words of a block, give or take a row: few enough to be in the nearest cache still when the words
// at its rows' ends are written.
const BLOCK_WORDS: usize = 2048;

// The n words at `to`, of rows that have no source row.
fn clear_words(dst: &mut [u64], to: usize, n: usize)
    requires { to + n ≤ length dst.old }
    ensures { RowAt to blank dst.old n dst.new }
{
    dst[to..to + n].fill(0);
}

// The h rows from place `from` on, moved sideways, written from place `to` on, a block at a time.
fn move_blocks(src: &[u64], from: usize, dst: &mut [u64], to: usize, m: Move, h: usize)
    requires source { from + m.n * h ≤ length src.now }
    requires room { to + m.n * h ≤ length dst.old }
    ensures { FrameAt to m.n (moved_rows src.now from m) dst.old h dst.new }
{
    let block = BLOCK_WORDS / (m.n + 1) + 1;
    for y in (0..h).step_by(block) {
        let rows = block.min(h - y);
        let done = y * m.n;
        move_rows(src, from + done, dst, to + done, m, rows);
    }
}

// Every row. Its source row is `down` above it, counted from the bias: the rows that have one lie
// together, with rows that have none above or below them.
pub fn place_rows(src: &[u64], dst: &mut [u64], h: usize, down: usize, m: Move)
    requires sized { Sized h m.n (length src.now) (length dst.old) }
    ensures { FrameAt 0 m.n (placed_rows src.now h m down) dst.old h dst.new }
{
    let n = m.n;
    let above = h.min(down.saturating_sub(BIAS));
    let below = h.min(BIAS.saturating_sub(down));
    let rows = h - above - below;
    clear_words(dst, 0, above * n);
    move_blocks(src, below * n, dst, above * n, m, rows);
    clear_words(dst, (above + rows) * n, below * n);
}
