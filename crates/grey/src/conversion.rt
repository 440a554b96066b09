// The grey conversion's core: a raster block by block, and what is left one by one.

ghost use Rattle.std.specs.Prelude.{◌+◌, ◌*◌, ◌≤◌, length};
ghost use Rattle.rules.specs.Buffers.{RowAt};
ghost use Rattle.grey.specs.GreyPlaces.{grey_at, grey_from, number_at};

use grey_block::{block_bytes, grey_of, planes, weighed};

// The grey values of a raster's first pixels, `blocks` blocks of them.
fn convert_blocks(raster: &[u8], blocks: usize, grey: &mut [u8], to: usize)
    requires blocks_in_bounds { 96 * blocks ≤ length raster.now }
    requires blocks_in_bounds_2 { to + 32 * blocks ≤ length grey.old }
    ensures { RowAt to (grey_at raster.now) grey.old (32 * blocks) grey.new }
{
    for b in 0..blocks {
        let all = block_bytes(raster, 96 * b);
        let colours = planes(&all);
        let block = weighed(&colours);
        let at = to + 32 * b;
        grey[at..at + 32].copy_from_slice(&block);
    }
}

// The grey values of n pixels whose bytes begin at `from` one by one, for what is left beside the
// blocks.
#[tactic(auto, unfolding(crate::specs::GreyPlaces::grey_from), using(rules::proofs::FrameLaws::row_more))]
fn convert_rest(raster: &[u8], from: usize, n: usize, grey: &mut [u8], to: usize)
    requires n_in_bounds { from + 3 * n ≤ length raster.now }
    requires n_in_bounds_2 { to + n ≤ length grey.old }
    ensures { RowAt to (grey_from raster.now from) grey.old n grey.new }
{
    for i in 0..n {
        let r = from + 3 * i;
        grey[to + i] = grey_of(raster[r], raster[r + 1], raster[r + 2]);
    }
}

// The grey values of the first n pixels of a raster, written from place `to` on.
pub fn convert(raster: &[u8], n: usize, grey: &mut [u8], to: usize)
    requires n_in_bounds { 3 * n ≤ length raster.now }
    requires n_in_bounds_2 { to + n ≤ length grey.old }
    ensures { RowAt to (grey_at raster.now) grey.old n grey.new }
{
    let blocks = n / 32;
    convert_blocks(raster, blocks, grey, to);
    let k = 32 * blocks;
    convert_rest(raster, 3 * k, n - k, grey, to + k);
}
