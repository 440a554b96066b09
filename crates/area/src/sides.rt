// The sides of the common area. An axis is 0 for columns, 1 for rows: dx stands before dy.

ghost use Rattle.std.specs.Prelude.{◌≡◌, ◌*◌, ◌<◌, ◌≤◌, length};
ghost use Rattle.rules.specs.Limits.{max_side};
ghost use Rattle.area.specs.Common.{low_side, high_side};
ghost use Rattle.area.specs.Sides.{axis_of, InRange};

// The first column or row that every frame has.
pub fn low_side(offsets: &[i32], n: usize, axis: usize) -> i32
    requires { (2 * n ≤ length offsets.now) × (axis < 2) }
    ensures { result ≡ low_side n (axis_of offsets.now axis) }
{
    let mut low: i32 = 0;
    for k in 0..n {
        low = offsets[2 * k + axis].max(low);
    }
    low
}

// The one after the last column or row that every frame has.
pub fn high_side(offsets: &[i32], n: usize, axis: usize, side: usize) -> i32
    requires n_in_bounds { (2 * n ≤ length offsets.now) × (axis < 2) × (side ≤ max_side) }
    requires in_range { InRange offsets.now }
    ensures { result ≡ high_side side n (axis_of offsets.now axis) }
{
    let whole = side as i32;
    let mut high = whole;
    for k in 0..n {
        high = high.min(whole + offsets[2 * k + axis]);
    }
    high
}
