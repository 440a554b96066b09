// The halving's core: two rows block by block, what is left one by one, and a frame row by row.

ghost use Rattle.std.specs.Prelude.{◌+◌, ◌*◌, ◌-◌, ◌/◌, ◌≤◌, length};
ghost use Rattle.rules.specs.Frames.{frame_of};
ghost use Rattle.rules.specs.Greys.{halved};
ghost use Rattle.rules.specs.Buffers.{RowAt, FrameAt};
ghost use Rattle.half_block.specs.HalfPlaces.{half_at, RowFits};

use half_block::{second_smallest, seconds, store_block};

// How many blocks of n results can be taken, with `bytes` bytes from the lower row's begin to the
// source's end: all whole ones, unless the last one's byte more is missing.
fn block_count(n: usize, bytes: usize) -> usize
    requires { 2 * n ≤ bytes }
    ensures within { 32 * result ≤ n }
    ensures more { 64 * result ≤ bytes - 1 }
{
    let whole = n / 32;
    if whole == 0 {
        return 0;
    }
    if 64 * whole < bytes { whole } else { whole - 1 }
}

// The first results of two rows, `blocks` blocks of them.
fn halve_blocks(src: &[u8], top: usize, bottom: usize, dst: &mut [u8], to: usize, blocks: usize)
    requires top_le_bottom { top ≤ bottom }
    requires blocks_in_bounds { 64 * blocks ≤ length src.now - bottom - 1 }
    requires blocks_in_bounds_2 { to + 32 * blocks ≤ length dst.old }
    ensures { RowAt to (half_at src.now top bottom) dst.old (32 * blocks) dst.new }
{
    for b in 0..blocks {
        let k = 32 * b;
        let all = seconds(src, top + 2 * k, bottom + 2 * k);
        store_block(&all, dst, to + k);
    }
}

// The results of two rows one by one, for what is left beside the blocks.
#[tactic(auto, unfolding(half_block::specs::HalfPlaces::half_at), using(rules::proofs::FrameLaws::row_more))]
fn halve_rest(src: &[u8], top: usize, bottom: usize, dst: &mut [u8], to: usize, n: usize)
    requires { RowFits (length src.now) top bottom (length dst.old) to n }
    ensures { RowAt to (half_at src.now top bottom) dst.old n dst.new }
{
    for k in 0..n {
        let left = 2 * k;
        let right = left + 1;
        dst[to + k] = second_smallest(
            src[top + left],
            src[top + right],
            src[bottom + left],
            src[bottom + right],
        );
    }
}

// The n results of two rows whose bytes begin at `top` and at `bottom`, written from place `to` on.
fn halve_row(src: &[u8], top: usize, bottom: usize, dst: &mut [u8], to: usize, n: usize)
    requires top_le_bottom { top ≤ bottom }
    requires row_fits { RowFits (length src.now) top bottom (length dst.old) to n }
    ensures { RowAt to (half_at src.now top bottom) dst.old n dst.new }
{
    let blocks = block_count(n, src.len() - bottom);
    halve_blocks(src, top, bottom, dst, to, blocks);
    let k = 32 * blocks;
    halve_rest(src, top + 2 * k, bottom + 2 * k, dst, to + k, n - k);
}

// A grey frame of w by h, halved to the beginning of `dst`.
pub fn halve_frame(src: &[u8], w: usize, h: usize, dst: &mut [u8])
    requires h_in_bounds { w * h ≤ length src.now }
    requires h_in_bounds_2 { w / 2 * (h / 2) ≤ length dst.old }
    ensures { FrameAt 0 (w / 2) (halved (frame_of w src.now)) dst.old (h / 2) dst.new }
{
    let columns = w / 2;
    for y in 0..h / 2 {
        let top = 2 * y * w;
        halve_row(src, top, top + w, dst, y * columns, columns);
    }
}
