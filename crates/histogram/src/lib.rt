// How often each grey value stands in a frame.
#![tactic(auto)]

ghost use Rattle.std.specs.Prelude.{◌≡◌, ℕ, ◌+◌, ◌-◌, ◌%◌, ◌<◌, ◌≤◌, length, get_or};
ghost use Rattle.histogram.specs.Counts.{max_pixels, count_to, count_in, CountsOf};
ghost use Rattle.histogram.specs.Tables.{Room, Bumped, four, Tally};

// One more of a value.
fn bump(table: &mut [u32; 256], value: u8)
    requires { Room table.old value }
    ensures { Bumped value table.old table.new }
{
    table[value as usize] += 1;
}

// Four pixels a turn into four tables in turn: with one table each step of a flat frame would wait for the last.
fn count_fours(
    grey: &[u8],
    a: &mut [u32; 256],
    b: &mut [u32; 256],
    c: &mut [u32; 256],
    d: &mut [u32; 256],
)
    requires { (length grey.now ≤ max_pixels) × (Tally grey.now 0 a.old b.old c.old d.old) }
    ensures { Tally grey.now (length grey.now - length grey.now % 4) a.new b.new c.new d.new }
{
    for turn in 0..grey.len() / 4 {
        let i = 4 * turn;
        bump(a, grey[i]);
        bump(b, grey[i + 1]);
        bump(c, grey[i + 2]);
        bump(d, grey[i + 3]);
    }
}

// The pixels from a place on, which the turns of four leave over, into one table.
fn count_rest(grey: &[u8], from: usize, table: &mut [u32; 256])
    requires { (from ≤ length grey.now) × (length grey.now ≤ max_pixels) × (length table.old ≡ 256) × ((v : ℕ) → get_or table.old v 0 ≤ count_to grey.now from v) }
    ensures { (length table.new ≡ 256)
        × ((v : ℕ) → get_or table.new v 0 + count_to grey.now from v ≡ get_or table.old v 0 + count_in grey.now v) }
{
    for i in from..grey.len() {
        bump(table, grey[i]);
    }
}

// The other three tables added to the first.
fn merge(a: &mut [u32; 256], b: &[u32; 256], c: &[u32; 256], d: &[u32; 256])
    requires { (length a.old ≡ 256) × ((v : ℕ) → four a.old b.now c.now d.now v ≤ max_pixels) }
    ensures { (v : ℕ) → v < 256 → get_or a.new v 0 ≡ four a.old b.now c.now d.now v }
{
    for v in 0..256 {
        a[v] += b[v] + c[v] + d[v];
    }
}

// How often each of the 256 grey values stands in a frame.
pub fn histogram(grey: &[u8]) -> [u32; 256]
    requires { length grey.now ≤ max_pixels }
    ensures { CountsOf grey.now result }
{
    let mut a = [0u32; 256];
    let mut b = [0u32; 256];
    let mut c = [0u32; 256];
    let mut d = [0u32; 256];
    count_fours(grey, &mut a, &mut b, &mut c, &mut d);
    count_rest(grey, grey.len() - grey.len() % 4, &mut a);
    merge(&mut a, &b, &c, &d);
    a
}
