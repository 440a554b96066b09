// Test vectors of what the program `bracket` prints.
#![tactic(auto)]

use files_text::{GREY_LENT, OUTPUT_LENT, WORDS_LENT};
use std::io;
use std::rt::Files;
use vectors::buffers::{fill_bytes, is_output};
use vectors_data::file::read_vectors;
use vectors_data::numbers::part;
use vectors_data::record::{Input, Output, Record};
use vectors_data::run::run_records;

const DATA_MEMORY: usize = 300000;

// Whether n bytes of text were written and nothing after them.
fn text_is(n: usize, out: &[u8; OUTPUT_LENT], record: Record<'_>) -> bool {
    n == record.output_length(Output::First)
        && part(out, 0, n) == part(record.contents(Output::First), 0, n)
        && is_output(out.as_slice(), record, Output::Second)
}

fn report_of(record: Record<'_>, out: &mut [u8; OUTPUT_LENT]) -> usize {
    let mut grey = [0u8; GREY_LENT];
    let mut words = [0u64; WORDS_LENT];
    let settings = record.input(Input::First);
    let first = record.input(Input::Second);
    let second = record.input(Input::Third);
    report::report(settings, first, second, &mut grey, &mut words, out)
}

// Whether the library agrees with the record.
fn agrees(record: Record<'_>) -> bool {
    let mut out = [0u8; OUTPUT_LENT];
    fill_bytes(&mut out);
    let n = report_of(record, &mut out);
    text_is(n, &out, record)
}

// An array of this size becomes a slice only here: the prover need not look at its elements.
fn run(rt: &(impl Files + Print), data: &mut [u8; DATA_MEMORY]) -> io::Result<()> {
    read_vectors(rt, data);
    run_records(rt, data, |_, _| {}, agrees)
}

fn main(rt: HostRuntime) -> io::Result<()> {
    let mut data = [0u8; DATA_MEMORY];
    run(&rt, &mut data)
}
