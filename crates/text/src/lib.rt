// Numbers as text, read and written: what P6 headers and the program `bracket` are made of.
#![tactic(auto)]

ghost use Rattle.std.specs.Prelude.{◌≡◌, ◌+◌, ◌≤◌, length, take};
ghost use Rattle.text.specs.Digits.{is_digit, leading, decimal, number_of, digits};
ghost use Rattle.text.specs.Puts.{Put};

// "A number has one to nine decimal digits": more would not fit 32 bits.
const MAX_DIGITS: usize = 9;

// A number of one to nine digits at the beginning of some bytes, and how many bytes it takes.
#[derive(Clone, Copy)]
pub struct Number {
    pub value: u32,
    pub count: usize,
}

fn leading_digits(bytes: &[u8]) -> usize
    ensures { result ≡ leading is_digit bytes.now }
{
    bytes.iter().take_while(|b| b.is_ascii_digit()).count()
}

// The number that the first n bytes spell.
fn value_of(bytes: &[u8], n: usize) -> u32
    requires n_bound { n ≤ 9 }
    requires n_bound_2 { n ≤ leading is_digit bytes.now }
    ensures { result ≡ decimal 0 (take n bytes.now) }
{
    let mut value: u32 = 0;
    for digit in &bytes[..n] {
        value = 10 * value + u32::from(*digit - b'0');
    }
    value
}

#[tactic(auto, unfolding(crate::specs::Digits::number_of))]
pub fn read_number(bytes: &[u8]) -> Option<Number>
    ensures { result ≡ number_of bytes.now }
{
    let count = leading_digits(bytes);
    if count == 0 || MAX_DIGITS < count {
        return None;
    }
    let value = value_of(bytes, count);
    Some(Number { value, count })
}

// Puts a text at place `at`, and answers the place after it.
pub fn put(out: &mut [u8], at: usize, text: &[u8]) -> usize
    requires { at + length text.now ≤ length out.old }
    ensures place { result ≡ at + length text.now }
    ensures output { Put at text.now out.old out.new }
{
    let end = at + text.len();
    out[at..end].copy_from_slice(text);
    end
}

// The number of digits that put_number writes.
pub fn digit_count(n: u32) -> usize
    ensures { result ≡ length (digits n) }
{
    if n < 10 {
        return 1;
    }
    digit_count(n / 10) + 1
}

// Puts a number in decimal digits at place `at`, and answers the place after it.
pub fn put_number(out: &mut [u8], at: usize, n: u32) -> usize
    requires { at + length (digits n) ≤ length out.old }
    ensures place { result ≡ at + length (digits n) }
    ensures output { Put at (digits n) out.old out.new }
{
    if n < 10 {
        out[at] = b'0' + n as u8;
        return at + 1;
    }
    let last = put_number(out, at, n / 10);
    out[last] = b'0' + (n % 10) as u8;
    last + 1
}
