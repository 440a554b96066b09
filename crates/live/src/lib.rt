// The live bracket: what its calls share. Its memory and its calls are defined in specs/.
#![tactic(auto)]

ghost use Rattle.std.specs.Prelude.{◌≡◌, ◌-◌};

// What the first numbers of the held memory say: size and settings of a live bracket, and how many frames
// it holds.
#[derive(Clone, Copy)]
pub struct Bracket {
    pub w: usize,
    pub h: usize,
    pub s: u32,
    pub tolerance: u32,
    pub percentile: u32,
    pub frames: usize,
}

// The pairs of so many frames.
pub fn pairs_in(frames: usize) -> usize
    ensures { result ≡ frames - 1 }
{
    if frames == 0 {
        return 0;
    }
    frames - 1
}
