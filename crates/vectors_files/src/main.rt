// Test vectors of the P6 reader and writer, and of what shows a result: common area, moved frame, blink row.
#![tactic(auto)]

use std::io;
use std::rt::Files;
use vectors::agreement::agrees_writing;
use vectors::buffers::input;
use vectors::outcome::Outcome;
use vectors_data::file::read_vectors;
use vectors_data::numbers::part;
use vectors_data::record::{Field, Input, Record};
use vectors_data::run::run_records;

const DATA_MEMORY: usize = 490000;

const BYTE_MEMORY: usize = 16384;

const MOST_OFFSETS: usize = 64;

#[derive(Clone, Copy)]
enum Call {
    Read,
    Write,
    Area,
    Moved,
    Blink,
}

// Calls have the numbers of tests/FORMAT.md.
impl TryFrom<u32> for Call {
    type Error = ();

    fn try_from(number: u32) -> Result<Self, ()> {
        match number {
            12 => Ok(Call::Read),
            13 => Ok(Call::Write),
            14 => Ok(Call::Area),
            15 => Ok(Call::Moved),
            16 => Ok(Call::Blink),
            _ => Err(()),
        }
    }
}

// Whether a part that was handed back is the one from `start` on, of this length.
fn is_part(handed: &[u8], whole: &[u8], start: usize, length: usize) -> bool {
    handed.len() == length && handed == part(whole, start, length)
}

// Of a call that also hands back a part: `same` says whether that is the expected one. A refused call's is empty.
fn with_part(outcome: Outcome, handed: &[u8], same: bool) -> Outcome {
    match outcome {
        Outcome::Refused(_) => outcome.when(handed.is_empty()),
        _ => outcome.when(same),
    }
}

fn read_outcome(record: Record<'_>) -> Outcome {
    let file = record.input(Input::First);
    let raster = ppm_read::p6_raster(file);
    let size = ppm_read::p6_size(file).map(|size| (size.w, size.h));
    let expected = (record.size(Field::Value1), record.size(Field::Value2));
    let start = record.size(Field::Value3);
    let same = is_part(raster, file, start, record.size(Field::Value4));
    with_part(Outcome::of(size, expected), raster, same)
}

fn write_outcome(record: Record<'_>, out: &mut [u8]) -> Outcome {
    let w = record.size(Field::Width);
    let h = record.size(Field::Height);
    let answer = ppm_write::p6_write(w, h, record.input(Input::First), out);
    Outcome::of(answer, record.size(Field::Value1))
}

fn area_outcome(record: Record<'_>) -> Outcome {
    let mut room = [0i32; MOST_OFFSETS];
    let offsets = input(record, Input::First, &mut room);
    let answer = area::common_area(
        record.size(Field::Width),
        record.size(Field::Height),
        record.size(Field::Frames),
        offsets,
    );
    let sides = answer.map(|area| (area.left, area.right, area.top, area.bottom));
    let expected = (
        record.size(Field::Value1),
        record.size(Field::Value2),
        record.size(Field::Value3),
        record.size(Field::Value4),
    );
    Outcome::of(sides, expected)
}

fn moved_outcome(record: Record<'_>, out: &mut [u8]) -> Outcome {
    let answer = moved::moved(
        record.size(Field::Width),
        record.size(Field::Height),
        record.signed(Field::MoveX),
        record.signed(Field::MoveY),
        record.input(Input::First),
        out,
    );
    Outcome::of(answer, ())
}

// The row of the raster that the record chooses.
fn blink_outcome(record: Record<'_>) -> Outcome {
    let w = record.size(Field::Width);
    let h = record.size(Field::Height);
    let y = record.size(Field::Reference);
    let first = record.input(Input::First);
    let second = record.input(Input::Second);
    let other = record.number(Field::Halvings) == 1;
    let answer = blink::blink_start(w, h, y, first, second);
    let row = blink::blink_row(w, h, y, other, first, second);
    let chosen = if other { second } else { first };
    let start = record.size(Field::Value1);
    let same = is_part(row, chosen, start, record.size(Field::Value2));
    with_part(Outcome::of(answer, start), row, same)
}

fn outcome(record: Record<'_>, out: &mut [u8]) -> Outcome {
    match Call::try_from(record.number(Field::Call)) {
        Ok(Call::Read) => read_outcome(record),
        Ok(Call::Write) => write_outcome(record, out),
        Ok(Call::Area) => area_outcome(record),
        Ok(Call::Moved) => moved_outcome(record, out),
        Ok(Call::Blink) => blink_outcome(record),
        Err(()) => Outcome::Differs,
    }
}

// Arrays of this size become slices only here: the prover need not look at their elements.
fn run(
    rt: &(impl Files + Print),
    data: &mut [u8; DATA_MEMORY],
    memory: &mut [u8; BYTE_MEMORY],
) -> io::Result<()> {
    read_vectors(rt, data);
    run_records(
        rt,
        data,
        |_, _| {},
        |record| agrees_writing(record, memory, outcome),
    )
}

fn main(rt: HostRuntime) -> io::Result<()> {
    let mut data = [0u8; DATA_MEMORY];
    let mut memory = [0u8; BYTE_MEMORY];
    run(&rt, &mut data, &mut memory)
}
