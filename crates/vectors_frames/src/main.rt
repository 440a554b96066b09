// Test vectors of grey conversion, halving and threshold.
#![tactic(auto)]

use std::io;
use std::rt::Files;
use vectors::agreement::agrees_writing;
use vectors::outcome::Outcome;
use vectors_data::file::read_vectors;
use vectors_data::record::{Field, Input, Record};
use vectors_data::run::run_records;

const DATA_MEMORY: usize = 140000;

const BYTE_MEMORY: usize = 4096;

#[derive(Clone, Copy)]
enum Call {
    Grey,
    Halve,
    Threshold,
}

// Calls have the numbers of tests/FORMAT.md.
impl TryFrom<u32> for Call {
    type Error = ();

    fn try_from(number: u32) -> Result<Self, ()> {
        match number {
            1 => Ok(Call::Grey),
            2 => Ok(Call::Halve),
            3 => Ok(Call::Threshold),
            _ => Err(()),
        }
    }
}

fn threshold_outcome(record: Record<'_>) -> Outcome {
    let answer = threshold::threshold(
        record.size(Field::Width),
        record.size(Field::Height),
        record.number(Field::Percentile),
        record.input(Input::First),
    );
    let threshold = answer.map(u32::from);
    Outcome::of(threshold, record.number(Field::Value1))
}

fn outcome(record: Record<'_>, out: &mut [u8]) -> Outcome {
    let w = record.size(Field::Width);
    let h = record.size(Field::Height);
    let input = record.input(Input::First);
    match Call::try_from(record.number(Field::Call)) {
        Ok(Call::Grey) => Outcome::of(grey::to_grey(w, h, input, out), ()),
        Ok(Call::Halve) => Outcome::of(halve::halve(w, h, input, out), ()),
        Ok(Call::Threshold) => threshold_outcome(record),
        Err(()) => Outcome::Differs,
    }
}

// Arrays of this size become slices only here: the prover need not look at their elements.
fn run(
    rt: &(impl Files + Print),
    data: &mut [u8; DATA_MEMORY],
    memory: &mut [u8; BYTE_MEMORY],
) -> io::Result<()> {
    read_vectors(rt, data);
    run_records(
        rt,
        data,
        |_, _| {},
        |record| agrees_writing(record, memory, outcome),
    )
}

fn main(rt: HostRuntime) -> io::Result<()> {
    let mut data = [0u8; DATA_MEMORY];
    let mut memory = [0u8; BYTE_MEMORY];
    run(&rt, &mut data, &mut memory)
}
