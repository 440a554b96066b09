// The answers and settings that the offered calls share. The documents' rules themselves stand in specs/.
#![tactic(auto)]

ghost use Rattle.std.specs.Prelude.{◌≡◌, ℕ};
ghost use Rattle.std.proofs.Common.{ap};
ghost use Rattle.rules.specs.declared.Refusal.{Refusal};
ghost use Rattle.rules.specs.RefusalNumbers.{number_of};

// Why a call is refused. As a number each is document 01's, or document 02's.
#[derive(Clone, Copy, Debug, PartialEq, Eq)]
pub enum Refusal {
    // a P6 file's header
    Header = 1,
    // the width or the height
    Size = 2,
    Halvings = 3,
    // a side is too short for the halvings
    Small = 4,
    Tolerance = 5,
    // the number of frames
    Frames = 6,
    // the reference is no frame
    Reference = 7,
    Percentile = 8,
    // an input's length
    Length = 9,
    // an output is short
    Room = 10,
    // work memory is short
    Memory = 11,
    // an offset is far out
    Offset = 12,
    // nothing is common to all frames
    Apart = 13,
    // a row past the last
    Row = 14,
    Band = 15,
    // what the memory of a live bracket says
    Held = 16,
}

impl From<Refusal> for u32 {
    ghost from_gives = { λ refusal n. n ≡ number_of refusal };

    fn from(refusal: Refusal) -> u32 {
        refusal as u32
    }
}

// What an answer is refused with: a refusal, or a number alone, so that another rule's number can stand
// in the place of 5.
pub trait Numbered: From<Refusal> + Copy {
    ghost number: { Self → ℕ };

    fn number(self) -> u32
        ensures { result ≡ number self };

    // A refusal keeps its number.
    ghost keeps: { (refusal : Refusal) (e : Self) → Self.from_gives refusal e → number e ≡ number_of refusal };
}

impl Numbered for Refusal {
    ghost number = { number_of };

    ghost keeps = { λ _ _ is. ap number_of is };

    fn number(self) -> u32 {
        u32::from(self)
    }
}

impl Numbered for u32 {
    ghost number = { λ n. n };

    ghost keeps = { λ _ _ is. is };

    fn number(self) -> u32 {
        self
    }
}

// The difference count at an offset, and out of how many pixels.
#[derive(Clone, Copy, Debug, PartialEq, Eq)]
pub struct Tally {
    pub count: u32,
    pub compared: u32,
}

// An offset moves a frame right by dx and down by dy.
#[derive(Clone, Copy, Debug, PartialEq, Eq)]
pub struct Offset {
    pub dx: i32,
    pub dy: i32,
}

// In which order a level prefers its nine candidates among equal counts.
#[derive(Clone, Copy)]
pub enum Order {
    LeastMove,
    Ward,
}

// Which grey values near the threshold a level leaves out.
#[derive(Clone, Copy)]
pub enum Exclusion {
    // those at most this far from it
    Tolerance(u32),
    // those from the threshold of the percentile this far below to that of the percentile this far above
    Band(u32),
}

// How two frames of w by h are aligned, with s halvings.
#[derive(Clone, Copy)]
pub struct Setup {
    pub w: usize,
    pub h: usize,
    pub s: u32,
    pub percentile: u32,
    pub exclusion: Exclusion,
}
