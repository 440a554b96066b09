// The field rotation warning: what the offsets of four quadrants say.
#![tactic(auto)]

ghost use Rattle.std.specs.Prelude.{◌≡◌, [], ◌∷◌, ◌≤◌, nat_abs};
ghost use Rattle.rules.specs.Limits.{max_offset};
ghost use Rattle.rules.specs.Levels.{Near};
ghost use Rattle.rotation.specs.Turns.{apart, differing, turned};

use rules::Offset;

fn apart(a: i32, b: i32) -> bool
    requires { (nat_abs a ≤ max_offset) × (nat_abs b ≤ max_offset) }
    ensures { result ≡ apart a b }
{
    1 < a.abs_diff(b)
}

fn differing(a: Offset, b: Offset) -> bool
    requires { Near max_offset a × Near max_offset b }
    ensures { result ≡ differing a b }
{
    apart(a.dx, b.dx) | apart(a.dy, b.dy)
}

// Whether any two of four offsets differ.
pub fn turned(a: Offset, b: Offset, c: Offset, d: Offset) -> bool
    requires { Near max_offset a × Near max_offset b × Near max_offset c × Near max_offset d }
    ensures { result ≡ turned (a ∷ b ∷ c ∷ d ∷ []) }
{
    let from_a = differing(a, b) | differing(a, c) | differing(a, d);
    let from_b = differing(b, c) | differing(b, d);
    let from_c = differing(c, d);
    from_a | from_b | from_c
}
