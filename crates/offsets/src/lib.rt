// The offsets of a series' frames from its reference, from the offsets of its pairs.
#![tactic(auto)]

ghost use Rattle.std.specs.Prelude.{◌≡◌, ◌+◌, ◌*◌, ◌-◌, ◌<◌, ◌≤◌, length};
ghost use Rattle.rules.specs.Limits.{max_offset};
ghost use Rattle.rules.specs.Frames.{written_over};
ghost use Rattle.rules.specs.Levels.{added, Near};
ghost use Rattle.rules.specs.Series.{opposite, frame_offset, offset_list};
ghost use Rattle.offsets.specs.PairOffsets.{max_frame_offset, pair_offset, with_offset, SmallPairs};

use rules::Offset;

// Writes offset k of a list.
pub fn put_offset(list: &mut [i32], k: usize, m: Offset)
    requires { 2 * k + 2 ≤ length list.old }
    ensures { list.new ≡ with_offset k m list.old }
{
    list[2 * k] = m.dx;
    list[2 * k + 1] = m.dy;
}

// The offset of frame k + 1: that of frame k, and that of their pair.
fn next_offset(m: Offset, pairs: &[i32], k: usize) -> Offset
    requires k_in_bounds { 2 * k + 2 ≤ length pairs.now }
    requires near { Near max_frame_offset m × Near max_offset (pair_offset pairs.now k) }
    ensures { result ≡ added m (pair_offset pairs.now k) }
{
    Offset {
        dx: m.dx + pairs[2 * k],
        dy: m.dy + pairs[2 * k + 1],
    }
}

// An offset turned round: that of frame 0 from frame r, for that of frame r from frame 0.
fn turned(m: Offset) -> Offset
    requires { Near max_frame_offset m }
    ensures { result ≡ opposite m }
{
    Offset {
        dx: -m.dx,
        dy: -m.dy,
    }
}

// Frame r's offset from frame 0: the sum of the pairs before it.
fn from_first(pairs: &[i32], r: usize) -> Offset
    requires r_bound { (r < 16) × (2 * r ≤ length pairs.now) }
    requires small_pairs { SmallPairs r pairs.now }
    ensures { result ≡ frame_offset (pair_offset pairs.now) 0 r }
{
    let mut sum = Offset { dx: 0, dy: 0 };
    for k in 0..r {
        sum = next_offset(sum, pairs, k);
    }
    sum
}

// The offsets of n frames from the reference r, from those of their pairs. Each frame's is its
// neighbour's and their pair's, below the reference too; so the frames are gone through upwards.
pub fn frame_offsets(pairs: &[i32], n: usize, r: usize, offsets: &mut [i32])
    requires frames { (r < n) × (n ≤ 16) }
    requires pairs { 2 * (n - 1) ≤ length pairs.now }
    requires room { 2 * n ≤ length offsets.old }
    requires small { SmallPairs (n - 1) pairs.now }
    ensures { offsets.new ≡ written_over (offset_list n (frame_offset (pair_offset pairs.now) r)) offsets.old }
{
    let mut m = turned(from_first(pairs, r));
    for k in 0..n - 1 {
        put_offset(offsets, k, m);
        m = next_offset(m, pairs, k);
    }
    put_offset(offsets, n - 1, m);
}
