// Answers as C gets them: a number, and values behind pointers.
#![tactic(auto)]

ghost use Rattle.std.specs.Prelude.{◌≡◌};
ghost use Rattle.rules.specs.RefusalNumbers.{numbered};
ghost use Rattle.c_answers.specs.Values.{offset, value_in};

use rules::{Numbered, Offset};

// The refusal number of an answer, 0 when the call was accepted.
pub fn refusal_in<E: Numbered>(answer: Result<(), E>) -> u32
    ensures { result ≡ numbered E.number answer }
{
    match answer {
        Ok(()) => 0,
        Err(refusal) => refusal.number(),
    }
}

// The same of an answer with a value, which goes behind the pointer. A refusal leaves that as it was.
pub fn value_into<T: Copy, E: Numbered>(answer: Result<T, E>, place: &mut T) -> u32
    ensures value { place.new ≡ value_in answer place.old }
    ensures number { result ≡ numbered E.number answer }
{
    match answer {
        Ok(value) => {
            *place = value;
            0
        }
        Err(refusal) => refusal.number(),
    }
}

// The same of a pair's answer, an offset behind two pointers.
pub fn moved_into<E: Numbered>(answer: Result<Offset, E>, dx: &mut i32, dy: &mut i32) -> u32
    ensures offset { offset dx.new dy.new ≡ value_in answer (offset dx.old dy.old) }
    ensures number { result ≡ numbered E.number answer }
{
    match answer {
        Ok(m) => {
            *dx = m.dx;
            *dy = m.dy;
            0
        }
        Err(refusal) => refusal.number(),
    }
}
