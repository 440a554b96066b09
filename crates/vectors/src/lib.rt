// Test vectors: what the programs vectors_* share. Each reads a data file, makes the calls that it records through the
// library's offered calls, and compares answers, values and every lent buffer with what the independent reference under
// tests/ gave. tests/FORMAT.md describes the files.
#![tactic(auto)]

pub mod agreement;
pub mod alignment;
pub mod buffers;
pub mod element;
pub mod outcome;
pub mod work;
