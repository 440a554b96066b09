// The whitespace of P6 headers: its bytes, and comments.
#![tactic(auto)]

ghost use Rattle.std.specs.Prelude.{◌≡◌};
ghost use Rattle.p6_whitespace.specs.Whitespace.{is_white, ends_line};
ghost use Rattle.p6_whitespace.specs.Blanks.{comment_length, blank_length, whitespace_length};

// The byte that begins a comment.
const HASH: u8 = b'#';

#[tactic(auto, unfolding(crate::specs::Whitespace::is_white))]
pub fn is_white(b: u8) -> bool
    ensures { result ≡ is_white b }
{
    matches!(b, 9 | 10 | 13 | 32)
}

#[tactic(auto, unfolding(crate::specs::Whitespace::ends_line))]
fn ends_line(b: u8) -> bool
    ensures { result ≡ ends_line b }
{
    matches!(b, 10 | 13)
}

// How many bytes a comment takes, the one that ends its line included.
fn comment_length(bytes: &[u8]) -> usize
    ensures { result ≡ comment_length bytes.now }
{
    match bytes.iter().position(|b| ends_line(*b)) {
        Some(n) => n + 1,
        None => 0, // the file cuts it off
    }
}

// How many bytes the first blank takes, a byte of whitespace or a comment; 0 where the bytes begin with none.
fn blank_length(bytes: &[u8]) -> usize
    ensures { result ≡ blank_length bytes.now }
{
    let Some(first) = bytes.first() else {
        return 0;
    };
    if is_white(*first) {
        return 1;
    }
    if *first == HASH {
        return comment_length(bytes);
    }
    0
}

// How many bytes all blanks at the beginning take.
pub fn whitespace_length(bytes: &[u8]) -> usize
    ensures { result ≡ whitespace_length bytes.now }
{
    let mut n: usize = 0;
    loop {
        let blank = blank_length(&bytes[n..]);
        if blank == 0 {
            return n;
        }
        n += blank;
    }
}
