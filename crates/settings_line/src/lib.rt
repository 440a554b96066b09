// The settings line `s T P` of the program `bracket`.
#![tactic(auto)]

ghost use Rattle.std.specs.Prelude.{◌≡◌, not, ◌≤◌, eqb, length};
ghost use Rattle.text.specs.Digits.{leading};
ghost use Rattle.settings_line.specs.SettingsLine.{numbers_of, settings_of};
ghost use Rattle.settings_line.specs.SpacedNumbers.{spaced_number};

use text::{Number, read_number};

// What a settings line says.
#[derive(Clone, Copy)]
pub struct Settings {
    pub s: u32,
    pub tolerance: u32,
    pub percentile: u32,
}

// The length of the line: it ends at a byte 10 or at the end of input.
fn line_length(input: &[u8]) -> usize
    ensures { result ≡ leading (λ b. not (eqb b 10)) input.now }
{
    input.iter().take_while(|b| **b != b'\n').count()
}

// The number at place `at`, and how many bytes it takes with the 32 after it.
#[tactic(auto, unfolding(crate::specs::SpacedNumbers::spaced_number, crate::specs::SpacedNumbers::with_space))]
fn spaced_number(line: &[u8], at: usize) -> Option<Number>
    requires { at ≤ length line.now }
    ensures { result ≡ spaced_number line.now at }
{
    let number = read_number(&line[at..])?;
    let end = at + number.count;
    let after = *line.get(end)?;
    if after != b' ' {
        return None;
    }
    Some(Number {
        value: number.value,
        count: number.count + 1,
    })
}

// The three numbers of a line.
fn numbers_of(line: &[u8]) -> Option<Settings>
    ensures { result ≡ numbers_of line.now }
{
    let s = spaced_number(line, 0)?;
    let tolerance = spaced_number(line, s.count)?;
    let at = s.count + tolerance.count;
    let percentile = read_number(&line[at..])?;
    if at + percentile.count != line.len() {
        return None;
    }
    Some(Settings {
        s: s.value,
        tolerance: tolerance.value,
        percentile: percentile.value,
    })
}

// What the first line of an input says.
pub fn settings_of(input: &[u8]) -> Option<Settings>
    ensures { result ≡ settings_of input.now }
{
    let n = line_length(input);
    numbers_of(&input[..n])
}
