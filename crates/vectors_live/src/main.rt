// Test vectors of the live bracket: its calls `start`, `add`, `drop_oldest` and `tell`, each with the memory before and
// after it.
#![tactic(auto)]

use rules::Refusal;
use std::io;
use std::rt::Files;
use vectors::agreement::agrees_aligning;
use vectors::buffers::{OFFSET, input, is_output, lend};
use vectors::element::load;
use vectors::outcome::Outcome;
use vectors::work::Work;
use vectors_data::file::read_vectors;
use vectors_data::record::{Field, Input, Output, Record};
use vectors_data::run::run_records;

const DATA_MEMORY: usize = 300000;

const GREY_MEMORY: usize = 2000;

const WORD_MEMORY: usize = 400;

const MOST_NUMBERS: usize = 40;

const MOST_PIXELS: usize = 600;

const MOST_OFFSETS: usize = 40;

#[derive(Clone, Copy)]
enum Call {
    Start,
    Add,
    Drop,
    Tell,
}

// Calls have the numbers of tests/FORMAT.md.
impl From<u32> for Call {
    fn from(number: u32) -> Self {
        match number {
            28 => Call::Start,
            29 => Call::Add,
            0..=30 => Call::Drop,
            31.. => Call::Tell,
        }
    }
}

// The memory of a bracket.
#[derive(Drop)]
struct Bracket<'a> {
    held: &'a mut [i32],
    newest: &'a mut [u8],
}

// The newest grey of a record, in a room; where that is too short, nothing, so that the comparison of lengths fails.
fn newest_of<'a>(record: Record<'_>, room: &'a mut [u8]) -> &'a mut [u8] {
    let bytes = record.input(Input::Second);
    let newest = lend(room, bytes.len());
    load(bytes, newest);
    newest
}

fn start(record: Record<'_>, bracket: &mut Bracket<'_>) -> Result<(), Refusal> {
    live_start::start(
        record.size(Field::Width),
        record.size(Field::Height),
        record.number(Field::Halvings),
        record.number(Field::Tolerance),
        record.number(Field::Percentile),
        bracket.held,
        bracket.newest,
    )
}

fn add(record: Record<'_>, bracket: &mut Bracket<'_>, work: &mut Work<'_>) -> Result<(), Refusal> {
    let raster = record.input(Input::Third);
    live_add::add(bracket.held, bracket.newest, raster, work.grey, work.words)
}

// Of a call that writes the memory.
fn write_outcome(
    record: Record<'_>,
    bracket: &Bracket<'_>,
    answer: Result<(), Refusal>,
) -> Outcome {
    Outcome::of(answer, ()).when(
        is_output(bracket.held, record, Output::First)
            && is_output(bracket.newest, record, Output::Second),
    )
}

fn tell_outcome(record: Record<'_>, bracket: &Bracket<'_>) -> Outcome {
    let mut room = [OFFSET; MOST_OFFSETS];
    let offsets = lend(&mut room, record.output_length(Output::First));
    let answer = live_tell::tell(bracket.held, bracket.newest, offsets);
    Outcome::of(answer, record.number(Field::Value1)).when(is_output(
        offsets,
        record,
        Output::First,
    ))
}

fn call_outcome(record: Record<'_>, bracket: &mut Bracket<'_>, work: &mut Work<'_>) -> Outcome {
    let answer = match Call::from(record.number(Field::Call)) {
        Call::Start => start(record, bracket),
        Call::Add => add(record, bracket, work),
        Call::Drop => live_drop::drop_oldest(bracket.held, bracket.newest),
        Call::Tell => return tell_outcome(record, bracket),
    };
    write_outcome(record, bracket, answer)
}

fn outcome(record: Record<'_>, work: &mut Work<'_>) -> Outcome {
    let mut numbers = [0i32; MOST_NUMBERS];
    let mut bytes = [0u8; MOST_PIXELS];
    let mut bracket = Bracket {
        held: input(record, Input::First, &mut numbers),
        newest: newest_of(record, &mut bytes),
    };
    call_outcome(record, &mut bracket, work)
}

// Arrays of this size become slices only here: the prover need not look at their elements.
fn run(
    rt: &(impl Files + Print),
    data: &mut [u8; DATA_MEMORY],
    grey: &mut [u8; GREY_MEMORY],
    words: &mut [u64; WORD_MEMORY],
) -> io::Result<()> {
    read_vectors(rt, data);
    run_records(
        rt,
        data,
        |_, _| {},
        |record| agrees_aligning(record, grey, words, outcome),
    )
}

fn main(rt: HostRuntime) -> io::Result<()> {
    let mut data = [0u8; DATA_MEMORY];
    let mut grey = [0u8; GREY_MEMORY];
    let mut words = [0u64; WORD_MEMORY];
    run(&rt, &mut data, &mut grey, &mut words)
}
