// The grey values of a block of 32 pixels, in small local arrays and loops without a branch, which the
// compiler takes many bytes at a time. Picking every third byte is not such a loop, but a perfect
// shuffle is, and five of them bring each colour's bytes together.
#![tactic(auto)]

ghost use Rattle.std.specs.Prelude.{◌≡◌, ◌+◌, ◌≤◌, length};
ghost use Rattle.rules.specs.Greys.{grey};
ghost use Rattle.rules.specs.Buffers.{Filled};
ghost use Rattle.grey_block.specs.GreyBlocks.{byte_from, shuffled_at, plane_at, weighed_at};

// In 16 bits, which hold 256 · 255: the narrower the sums, the more of them at a time.
#[tactic(auto, unfolding(rules::specs::Greys::grey))]
pub fn grey_of(r: u8, g: u8, b: u8) -> u8
    ensures { result ≡ grey r g b }
{
    ((54 * (r as u16) + 183 * (g as u16) + 19 * (b as u16)) / 256) as u8
}

// The 96 bytes of a block's pixels, from place `from` on.
#[tactic(auto, unfolding(crate::specs::GreyBlocks::byte_from))]
pub fn block_bytes(raster: &[u8], from: usize) -> [u8; 96]
    requires { from + 96 ≤ length raster.now }
    ensures { Filled (byte_from raster.now from) 96 result }
{
    let mut all = [0u8; 96];
    all.copy_from_slice(&raster[from..from + 96]);
    all
}

// The bytes of the first half and those of the second by turns.
fn shuffled(all: &[u8; 96]) -> [u8; 96]
    ensures { Filled (shuffled_at all.now) 96 result }
{
    let mut out = [0u8; 96];
    for k in 0..48 {
        out[2 * k] = all[k];
        out[2 * k + 1] = all[48 + k];
    }
    out
}

// The 32 reds, then the greens, then the blues.
#[tactic(auto, using(crate::proofs::ColourLaws::planes_filled))]
pub fn planes(all: &[u8; 96]) -> [u8; 96]
    ensures { Filled (plane_at all.now) 96 result }
{
    let one = shuffled(all);
    let two = shuffled(&one);
    let three = shuffled(&two);
    let four = shuffled(&three);
    shuffled(&four)
}

// The grey values of a block's pixels.
#[tactic(auto, unfolding(crate::specs::GreyBlocks::weighed_at), using(rules::proofs::FilledLaws::filled_more))]
pub fn weighed(colours: &[u8; 96]) -> [u8; 32]
    ensures { Filled (weighed_at colours.now) 32 result }
{
    let mut block = [0u8; 32];
    for k in 0..32 {
        block[k] = grey_of(colours[k], colours[32 + k], colours[64 + k]);
    }
    block
}
