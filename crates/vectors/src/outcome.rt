// What became of a call.

use rules::Refusal;
use vectors_data::record::{Field, Record};

// No refusal has this number, and no record expects it, but for a damaged one.
const DIFFERS: u32 = 1000;

#[derive(Clone, Copy, PartialEq, Eq)]
pub enum Outcome {
    // with the values that the record expects
    Accepted,
    Refused(u32),
    // accepted with other values, or something else was written than the record expects
    Differs,
}

impl Outcome {
    // Of an answer whose value is to be the expected one.
    pub fn of<T: PartialEq + Drop>(answer: Result<T, Refusal>, expected: T) -> Outcome {
        match answer {
            Ok(value) => Outcome::Accepted.when(value == expected),
            Err(refusal) => Outcome::Refused(u32::from(refusal)),
        }
    }

    pub fn when(self, same: bool) -> Outcome {
        if same { self } else { Outcome::Differs }
    }

    // The number that stands for it in a record.
    fn number(self) -> u32 {
        match self {
            Outcome::Accepted => 0,
            Outcome::Refused(number) => number,
            Outcome::Differs => DIFFERS,
        }
    }

    // Whether the record says the same.
    pub fn is_expected(self, record: Record<'_>) -> bool {
        self.number() == record.number(Field::Refusal)
    }
}
