// Whether the library agrees with a record. `outcome` makes the record's call.

use crate::buffers::{is_output, lend_bytes};
use crate::outcome::Outcome;
use crate::work::Work;
use vectors_data::record::{Output, Record};

// Of a call that writes bytes or nothing.
pub fn agrees_writing<F>(record: Record<'_>, memory: &mut [u8], outcome: F) -> bool
where
    F: FnOnce(Record<'_>, &mut [u8]) -> Outcome,
    requires { F.IsAlwaysCallable outcome }
{
    let out = lend_bytes(memory, record.output_length(Output::First));
    let outcome = outcome(record, out);
    outcome.is_expected(record) && is_output(out, record, Output::First)
}

// Of a call that aligns.
pub fn agrees_aligning<F>(
    record: Record<'_>,
    grey: &mut [u8],
    words: &mut [u64],
    outcome: F,
) -> bool
where
    F: FnOnce(Record<'_>, &mut Work<'_>) -> Outcome,
    requires { F.IsAlwaysCallable outcome }
{
    let mut work = Work::lend(record, grey, words);
    let outcome = outcome(record, &mut work);
    work.agrees(record, outcome)
}
