// A data file (tests/FORMAT.md), and what stands in it.

use crate::numbers::{number_at, part, rest};
use crate::record::Record;
use std::fs;
use std::io::Read;
use std::rt::Files;

// Places of the header's numbers.
const GROUPS: usize = 4;

const RECORDS: usize = 8;

const POOL: usize = 12;

const LENGTH: usize = 16;

const HEADER_BYTES: usize = 20;

const GROUP_BYTES: usize = 16;

const RECORD_BYTES: usize = 136;

// Places of a group's numbers.
const NAME: usize = 0;

const NAME_LENGTH: usize = 4;

const GROUP_RECORDS: usize = 12;

// The records of one kind.
#[derive(Clone, Copy)]
pub struct Group<'a> {
    pub name: &'a [u8],
    pub records: u32,
}

#[derive(Clone, Copy)]
pub struct DataFile<'a> {
    bytes: &'a [u8],
}

impl<'a> DataFile<'a> {
    // The file that begins these bytes.
    pub fn new(bytes: &'a [u8]) -> Self {
        DataFile { bytes }
    }

    pub fn length(self) -> usize {
        number_at(self.bytes, LENGTH) as usize
    }

    pub fn record_count(self) -> u32 {
        number_at(self.bytes, RECORDS)
    }

    // The pool, and what stands after it.
    fn pool(self) -> &'a [u8] {
        rest(self.bytes, number_at(self.bytes, POOL) as usize)
    }

    // A group that is cut off has no name and no records.
    pub fn group(self, k: u32) -> Group<'a> {
        let at = HEADER_BYTES + GROUP_BYTES * k as usize;
        let numbers = part(self.bytes, at, GROUP_BYTES);
        let place = number_at(numbers, NAME) as usize;
        let length = number_at(numbers, NAME_LENGTH) as usize;
        Group {
            name: part(self.pool(), place, length),
            records: number_at(numbers, GROUP_RECORDS),
        }
    }

    // Records stand after the groups.
    pub fn record_place(self, k: u32) -> usize {
        let groups = number_at(self.bytes, GROUPS) as usize;
        HEADER_BYTES + GROUP_BYTES * groups + RECORD_BYTES * k as usize
    }

    pub fn record_at(self, place: usize) -> Record<'a> {
        Record {
            numbers: rest(self.bytes, place),
            pool: self.pool(),
        }
    }
}

// Reads the program's data file; where it is missing, the bytes stay as they are.
pub fn read_vectors(rt: &impl Files, bytes: &mut [u8]) {
    if let Ok(mut file) = fs::open(rt, "vectors.bin") {
        let _ = file.read_exact(bytes);
    }
}
