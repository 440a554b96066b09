// The range that document 01 allows to offsets.

ghost use Rattle.std.specs.Prelude.{◌≡◌};
ghost use Rattle.area.specs.Common.{outside, some_outside};

const LOWEST: i32 = -32768;

const HIGHEST: i32 = 32767;

#[tactic(auto, unfolding(crate::specs::Common::outside))]
fn outside(d: i32) -> bool
    ensures { result ≡ outside d }
{
    d < LOWEST || HIGHEST < d
}

pub fn some_outside(offsets: &[i32]) -> bool
    ensures { result ≡ some_outside offsets.now }
{
    offsets.iter().any(|d| outside(*d))
}
