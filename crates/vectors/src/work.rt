// The work memory of calls that align.

use crate::buffers::{is_output, lend_bytes, lend_words};
use crate::outcome::Outcome;
use vectors_data::record::{Output, Record};

#[derive(Drop)]
pub struct Work<'a> {
    pub grey: &'a mut [u8],
    pub words: &'a mut [u64],
}

impl<'a> Work<'a> {
    // As much of the memory as the record lends, filled.
    pub fn lend(record: Record<'_>, grey: &'a mut [u8], words: &'a mut [u64]) -> Self {
        Work {
            grey: lend_bytes(grey, record.output_length(Output::Grey)),
            words: lend_words(words, record.output_length(Output::Words)),
        }
    }

    // Whether the record says the same of a call with this memory: one that refuses leaves it as it was.
    pub(crate) fn agrees(&self, record: Record<'_>, outcome: Outcome) -> bool {
        outcome.is_expected(record)
            && (outcome == Outcome::Accepted
                || is_output(self.grey, record, Output::Grey)
                    && is_output(self.words, record, Output::Words))
    }
}
