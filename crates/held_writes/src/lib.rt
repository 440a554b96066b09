// The numbers of a live bracket's memory, written: what it says of size, settings and frames, and its pairs.
#![tactic(auto)]

ghost use Rattle.std.specs.Prelude.{◌≡◌, ◌<◌, ◌≤◌, length};
ghost use Rattle.rules.specs.Frames.{written_over};
ghost use Rattle.live.specs.Held.{held_length, held_pair, layout};
ghost use Rattle.live.specs.HeldOk.{BracketOk};
ghost use Rattle.held_writes.specs.HeldWrites.{first_numbers, ZeroFrom, PairPut, PairDropped};

use held_numbers::PAIRS;
use live::{Bracket, pairs_in};
use offsets::put_offset;
use rules::Offset;

fn clear_from(held: &mut [i32], from: usize)
    requires { from ≤ length held.old }
    ensures { ZeroFrom from held.old held.new }
{
    held[from..].fill(0);
}

fn put_first(held: &mut [i32], b: Bracket)
    requires held_length_in_bounds { held_length ≤ length held.old }
    requires bracket_ok { BracketOk b }
    ensures { held.new ≡ written_over (first_numbers b) held.old }
{
    let Bracket {
        w,
        h,
        s,
        tolerance,
        percentile,
        frames,
    } = b;
    held[0] = w as i32;
    held[1] = h as i32;
    held[2] = s as i32;
    held[3] = tolerance as i32;
    held[4] = percentile as i32;
    held[5] = frames as i32;
}

// A bracket beside its pairs: the first numbers, and 0 after the pairs in use.
pub fn put_bracket(held: &mut [i32], b: Bracket)
    requires held_len { length held.old ≡ held_length }
    requires bracket_ok { BracketOk b }
    ensures { held.new ≡ layout b (held_pair held.old) }
{
    let pairs = pairs_in(b.frames);
    put_first(held, b);
    clear_from(held, PAIRS + 2 * pairs);
}

// The offset of pair k.
pub fn put_pair(held: &mut [i32], k: usize, m: Offset)
    requires held_len { length held.old ≡ held_length }
    requires k_bound { k < 15 }
    ensures { PairPut k m held.old held.new }
{
    put_offset(&mut held[PAIRS..], k, m);
}

// The first n pairs after the oldest one, each in the place of the one before it.
pub fn drop_pair(held: &mut [i32], n: usize)
    requires held_len { length held.old ≡ held_length }
    requires n_bound { n < 15 }
    ensures { PairDropped n held.old held.new }
{
    let second = PAIRS + 2;
    held.copy_within(second..second + 2 * n, PAIRS);
}
