// Test vectors of `quadrants`: of stored and of made frames.
#![tactic(auto)]

use rules::Refusal;
use std::io;
use std::rt::Files;
use vectors::agreement::agrees_aligning;
use vectors::buffers::{OFFSET, is_output, lend};
use vectors::outcome::Outcome;
use vectors::work::Work;
use vectors_data::file::read_vectors;
use vectors_data::record::{Field, Input, Output, Record};
use vectors_data::run::run_records;
use vectors_scene::make_frames;

// The file, and after it the made bytes of the largest frames.
const DATA_MEMORY: usize = 3900000;

const GREY_MEMORY: usize = 710000;

const WORD_MEMORY: usize = 28000;

const MOST_OFFSETS: usize = 16;

// What value 1 of a record has where the frames are turned.
const TURNED: u32 = 1;

// Whether the frames are turned.
fn answer_of(
    record: Record<'_>,
    offsets: &mut [i32],
    work: &mut Work<'_>,
) -> Result<bool, Refusal> {
    quadrants::quadrants(
        record.size(Field::Width),
        record.size(Field::Height),
        record.number(Field::Halvings),
        record.number(Field::Tolerance),
        record.number(Field::Percentile),
        record.input(Input::First),
        record.input(Input::Second),
        offsets,
        work.grey,
        work.words,
    )
}

fn outcome(record: Record<'_>, work: &mut Work<'_>) -> Outcome {
    let mut room = [OFFSET; MOST_OFFSETS];
    let offsets = lend(&mut room, record.output_length(Output::First));
    let answer = answer_of(record, offsets, work);
    Outcome::of(answer, record.number(Field::Value1) == TURNED).when(is_output(
        offsets,
        record,
        Output::First,
    ))
}

// Arrays of this size become slices only here: the prover need not look at their elements.
fn run(
    rt: &(impl Files + Print),
    data: &mut [u8; DATA_MEMORY],
    grey: &mut [u8; GREY_MEMORY],
    words: &mut [u64; WORD_MEMORY],
) -> io::Result<()> {
    read_vectors(rt, data);
    run_records(
        rt,
        data,
        make_frames,
        |record| agrees_aligning(record, grey, words, outcome),
    )
}

fn main(rt: HostRuntime) -> io::Result<()> {
    let mut data = [0u8; DATA_MEMORY];
    let mut grey = [0u8; GREY_MEMORY];
    let mut words = [0u64; WORD_MEMORY];
    run(&rt, &mut data, &mut grey, &mut words)
}
