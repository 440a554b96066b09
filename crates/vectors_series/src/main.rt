// Test vectors of `series`, `series_ward` and `series_band`: of stored and of made frames.
#![tactic(auto)]

use std::io;
use std::rt::Files;
use vectors::agreement::agrees_aligning;
use vectors::alignment::Alignment;
use vectors::buffers::{COMPARED, COUNT, OFFSET, input, is_output, lend};
use vectors::outcome::Outcome;
use vectors::work::Work;
use vectors_data::file::read_vectors;
use vectors_data::record::{Field, Input, Output, Record};
use vectors_data::run::run_records;
use vectors_scene::make_frames;

// The file, and after it the made bytes of the largest frames.
const DATA_MEMORY: usize = 3210000;

const GREY_MEMORY: usize = 710000;

const WORD_MEMORY: usize = 28000;

const MOST_COUNTS: usize = 2048;

const MOST_OFFSETS: usize = 64;

const MOST_PERCENTILES: usize = 32;

// What a series call writes, beside its work memory.
#[derive(Drop)]
struct Outputs<'a> {
    offsets: &'a mut [i32],
    counts: &'a mut [u32],
    compared: &'a mut [u32],
}

// A call of `series`, one of three of the same form. The tolerance is the band of the one that has a band.
macro_rules! answer_of {
    ($series:path, $record:ident, $percentiles:ident, $outputs:ident, $work:ident) => {
        $series(
            $record.size(Field::Width),
            $record.size(Field::Height),
            $record.number(Field::Halvings),
            $record.number(Field::Tolerance),
            $record.size(Field::Frames),
            $record.size(Field::Reference),
            $percentiles,
            $record.input(Input::Second),
            $outputs.offsets,
            $outputs.counts,
            $outputs.compared,
            $work.grey,
            $work.words,
        )
    };
}

fn series_outcome(record: Record<'_>, outputs: &mut Outputs<'_>, work: &mut Work<'_>) -> Outcome {
    let mut room = [0u32; MOST_PERCENTILES];
    let percentiles = input(record, Input::First, &mut room);
    let answer = match Alignment::from(record.number(Field::Call)) {
        Alignment::LeastMove => answer_of!(series::series, record, percentiles, outputs, work),
        Alignment::Ward => answer_of!(series::series_ward, record, percentiles, outputs, work),
        Alignment::Band => answer_of!(series_band::series_band, record, percentiles, outputs, work),
    };
    Outcome::of(answer, ())
}

fn outcome(record: Record<'_>, work: &mut Work<'_>) -> Outcome {
    let mut room1 = [OFFSET; MOST_OFFSETS];
    let mut room2 = [COUNT; MOST_COUNTS];
    let mut room3 = [COMPARED; MOST_COUNTS];
    let mut outputs = Outputs {
        offsets: lend(&mut room1, record.output_length(Output::First)),
        counts: lend(&mut room2, record.output_length(Output::Second)),
        compared: lend(&mut room3, record.output_length(Output::Third)),
    };
    series_outcome(record, &mut outputs, work).when(
        is_output(outputs.offsets, record, Output::First)
            && is_output(outputs.counts, record, Output::Second)
            && is_output(outputs.compared, record, Output::Third),
    )
}

// Arrays of this size become slices only here: the prover need not look at their elements.
fn run(
    rt: &(impl Files + Print),
    data: &mut [u8; DATA_MEMORY],
    grey: &mut [u8; GREY_MEMORY],
    words: &mut [u64; WORD_MEMORY],
) -> io::Result<()> {
    read_vectors(rt, data);
    run_records(
        rt,
        data,
        make_frames,
        |record| agrees_aligning(record, grey, words, outcome),
    )
}

fn main(rt: HostRuntime) -> io::Result<()> {
    let mut data = [0u8; DATA_MEMORY];
    let mut grey = [0u8; GREY_MEMORY];
    let mut words = [0u64; WORD_MEMORY];
    run(&rt, &mut data, &mut grey, &mut words)
}
