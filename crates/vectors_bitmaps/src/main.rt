// Test vectors of bitmaps, shift, total and difference.
#![tactic(auto)]

use std::io;
use std::rt::Files;
use vectors::buffers::{input, is_output, lend_words};
use vectors::outcome::Outcome;
use vectors_data::file::read_vectors;
use vectors_data::record::{Field, Input, Output, Record};
use vectors_data::run::run_records;

const DATA_MEMORY: usize = 320000;

// The most words of a stored bitmap.
const MOST_WORDS: usize = 128;

#[derive(Clone, Copy)]
enum Call {
    Bitmaps,
    Shift,
    Total,
    Difference,
}

// Calls have the numbers of tests/FORMAT.md.
impl TryFrom<u32> for Call {
    type Error = ();

    fn try_from(number: u32) -> Result<Self, ()> {
        match number {
            4 => Ok(Call::Bitmaps),
            5 => Ok(Call::Shift),
            6 => Ok(Call::Total),
            7 => Ok(Call::Difference),
            _ => Err(()),
        }
    }
}

// The two bitmaps of a frame.
#[derive(Clone, Copy)]
struct Bitmaps<'a> {
    threshold: &'a [u64],
    exclusion: &'a [u64],
}

fn bitmaps_outcome(record: Record<'_>, thresholds: &mut [u64]) -> Outcome {
    let mut room = [0u64; MOST_WORDS];
    let exclusions = lend_words(&mut room, record.output_length(Output::Second));
    let answer = pack::bitmaps(
        record.size(Field::Width),
        record.size(Field::Height),
        (record.number(Field::Percentile) % 256) as u8,
        record.number(Field::Tolerance),
        record.input(Input::First),
        thresholds,
        exclusions,
    );
    Outcome::of(answer, ()).when(is_output(exclusions, record, Output::Second))
}

fn shift_outcome(record: Record<'_>, out: &mut [u64]) -> Outcome {
    let mut room = [0u64; MOST_WORDS];
    let answer = shift::shift(
        record.size(Field::Width),
        record.size(Field::Height),
        record.signed(Field::MoveX),
        record.signed(Field::MoveY),
        input(record, Input::First, &mut room),
        out,
    );
    Outcome::of(answer, ())
}

fn total_outcome(record: Record<'_>) -> Outcome {
    let mut room = [0u64; MOST_WORDS];
    let bits = input(record, Input::First, &mut room);
    let answer = total::total(record.size(Field::Width), record.size(Field::Height), bits);
    Outcome::of(answer, record.number(Field::Value1))
}

fn difference_of(record: Record<'_>, first: Bitmaps<'_>, second: Bitmaps<'_>) -> Outcome {
    let answer = difference::difference(
        record.size(Field::Width),
        record.size(Field::Height),
        record.signed(Field::MoveX),
        record.signed(Field::MoveY),
        first.threshold,
        first.exclusion,
        second.threshold,
        second.exclusion,
    );
    let expected = (record.number(Field::Value1), record.number(Field::Value2));
    Outcome::of(answer.map(|tally| (tally.count, tally.compared)), expected)
}

fn difference_outcome(record: Record<'_>) -> Outcome {
    let mut room1 = [0u64; MOST_WORDS];
    let mut room2 = [0u64; MOST_WORDS];
    let mut room3 = [0u64; MOST_WORDS];
    let mut room4 = [0u64; MOST_WORDS];
    let first = Bitmaps {
        threshold: input(record, Input::First, &mut room1),
        exclusion: input(record, Input::Second, &mut room2),
    };
    let second = Bitmaps {
        threshold: input(record, Input::Third, &mut room3),
        exclusion: input(record, Input::Fourth, &mut room4),
    };
    difference_of(record, first, second)
}

fn outcome(record: Record<'_>, out: &mut [u64]) -> Outcome {
    match Call::try_from(record.number(Field::Call)) {
        Ok(Call::Bitmaps) => bitmaps_outcome(record, out),
        Ok(Call::Shift) => shift_outcome(record, out),
        Ok(Call::Total) => total_outcome(record),
        Ok(Call::Difference) => difference_outcome(record),
        Err(()) => Outcome::Differs,
    }
}

// Whether the library agrees with the record.
fn agrees(record: Record<'_>) -> bool {
    let mut room = [0u64; MOST_WORDS];
    let out = lend_words(&mut room, record.output_length(Output::First));
    outcome(record, out).is_expected(record) && is_output(out, record, Output::First)
}

// An array of this size becomes a slice only here: the prover need not look at its elements.
fn run(rt: &(impl Files + Print), data: &mut [u8; DATA_MEMORY]) -> io::Result<()> {
    read_vectors(rt, data);
    run_records(rt, data, |_, _| {}, agrees)
}

fn main(rt: HostRuntime) -> io::Result<()> {
    let mut data = [0u8; DATA_MEMORY];
    run(&rt, &mut data)
}
