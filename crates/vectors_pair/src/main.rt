// Test vectors of `pair`, `pair_ward` and `pair_band`: of stored and of made frames.
#![tactic(auto)]

use rules::{Offset, Refusal};
use std::io;
use std::rt::Files;
use vectors::agreement::agrees_aligning;
use vectors::alignment::Alignment;
use vectors::buffers::{COMPARED, COUNT, is_output, lend};
use vectors::outcome::Outcome;
use vectors::work::Work;
use vectors_data::file::read_vectors;
use vectors_data::record::{Field, Input, Output, Record};
use vectors_data::run::run_records;
use vectors_scene::make_frames;

// The file, and after it the made bytes of the largest frames.
const DATA_MEMORY: usize = 4010000;

const GREY_MEMORY: usize = 2830000;

const WORD_MEMORY: usize = 105000;

const MOST_COUNTS: usize = 128;

// What a pair call writes, beside its work memory.
#[derive(Drop)]
struct Outputs<'a> {
    counts: &'a mut [u32],
    compared: &'a mut [u32],
}

// Makes a call, one of three of the same form. The tolerance is the band of the one that has a band.
fn answer_of<F>(
    pair: F,
    record: Record<'_>,
    outputs: &mut Outputs<'_>,
    work: &mut Work<'_>,
) -> Result<Offset, Refusal>
where
    F: FnOnce(
        usize,
        usize,
        u32,
        u32,
        u32,
        &[u8],
        &[u8],
        &mut [u32],
        &mut [u32],
        &mut [u8],
        &mut [u64],
    ) -> Result<Offset, Refusal>,
    requires { F.IsAlwaysCallable pair }
{
    pair(
        record.size(Field::Width),
        record.size(Field::Height),
        record.number(Field::Halvings),
        record.number(Field::Tolerance),
        record.number(Field::Percentile),
        record.input(Input::First),
        record.input(Input::Second),
        outputs.counts,
        outputs.compared,
        work.grey,
        work.words,
    )
}

fn pair_outcome(record: Record<'_>, outputs: &mut Outputs<'_>, work: &mut Work<'_>) -> Outcome {
    let answer = match Alignment::from(record.number(Field::Call)) {
        Alignment::LeastMove => answer_of(pair::pair, record, outputs, work),
        Alignment::Ward => answer_of(pair::pair_ward, record, outputs, work),
        Alignment::Band => answer_of(pair_band::pair_band, record, outputs, work),
    };
    let offset = answer.map(|offset| (offset.dx, offset.dy));
    Outcome::of(
        offset,
        (record.signed(Field::Value1), record.signed(Field::Value2)),
    )
}

fn outcome(record: Record<'_>, work: &mut Work<'_>) -> Outcome {
    let mut room1 = [COUNT; MOST_COUNTS];
    let mut room2 = [COMPARED; MOST_COUNTS];
    let mut outputs = Outputs {
        counts: lend(&mut room1, record.output_length(Output::First)),
        compared: lend(&mut room2, record.output_length(Output::Second)),
    };
    pair_outcome(record, &mut outputs, work).when(
        is_output(outputs.counts, record, Output::First)
            && is_output(outputs.compared, record, Output::Second),
    )
}

// Arrays of this size become slices only here: the prover need not look at their elements.
fn run(
    rt: &(impl Files + Print),
    data: &mut [u8; DATA_MEMORY],
    grey: &mut [u8; GREY_MEMORY],
    words: &mut [u64; WORD_MEMORY],
) -> io::Result<()> {
    read_vectors(rt, data);
    run_records(
        rt,
        data,
        make_frames,
        |record| agrees_aligning(record, grey, words, outcome),
    )
}

fn main(rt: HostRuntime) -> io::Result<()> {
    let mut data = [0u8; DATA_MEMORY];
    let mut grey = [0u8; GREY_MEMORY];
    let mut words = [0u64; WORD_MEMORY];
    run(&rt, &mut data, &mut grey, &mut words)
}
