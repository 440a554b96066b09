// A record of a data file: one call, what it is given, and what it has to answer and write.

use crate::numbers::{number_at, part, rest};

// The numbers of a record.
#[derive(Clone, Copy)]
pub enum Field {
    Call = 0,
    Refusal = 1,
    Width = 2,
    Height = 3,
    Halvings = 4,
    Tolerance = 5,
    Percentile = 6,
    Frames = 7,
    Reference = 8,
    MoveX = 9,
    MoveY = 10,
    Value1 = 29,
    Value2 = 30,
    Value3 = 31,
    Value4 = 32,
    Scene = 33,
}

// The inputs, each by the first of its two numbers: its place, and then its length.
#[derive(Clone, Copy)]
pub enum Input {
    First = 11,
    Second = 13,
    Third = 15,
    Fourth = 17,
}

// What is lent, likewise: its length, and then the place of its expected contents.
#[derive(Clone, Copy)]
pub enum Output {
    First = 19,
    Second = 21,
    Third = 23,
    Grey = 25,
    Words = 27,
}

#[derive(Clone, Copy)]
pub struct Record<'a> {
    // the file from the record on
    pub(crate) numbers: &'a [u8],
    pub(crate) pool: &'a [u8],
}

impl<'a> Record<'a> {
    fn at(self, k: u8) -> u32 {
        number_at(self.numbers, 4 * usize::from(k))
    }

    pub fn number(self, field: Field) -> u32 {
        self.at(field as u8)
    }

    // The signed number of these 32 bits.
    pub fn signed(self, field: Field) -> i32 {
        self.number(field).cast_signed()
    }

    pub fn size(self, field: Field) -> usize {
        self.number(field) as usize
    }

    // How many elements an input has.
    pub fn input_length(self, input: Input) -> usize {
        self.at(input as u8 + 1) as usize
    }

    // The pool from an input on.
    pub fn input_on(self, input: Input) -> &'a [u8] {
        rest(self.pool, self.at(input as u8) as usize)
    }

    // An input of bytes.
    pub fn input(self, input: Input) -> &'a [u8] {
        part(self.input_on(input), 0, self.input_length(input))
    }

    // How many elements are lent.
    pub fn output_length(self, output: Output) -> usize {
        self.at(output as u8) as usize
    }

    // The pool from an output's expected contents on.
    pub fn contents(self, output: Output) -> &'a [u8] {
        rest(self.pool, self.at(output as u8 + 1) as usize)
    }
}
