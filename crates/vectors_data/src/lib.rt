// Test vectors: the data file of a program vectors_*, and the count of what was compared. tests/FORMAT.md describes
// the files.
#![tactic(auto)]

pub mod file;
pub mod numbers;
pub mod record;
pub mod run;
pub mod tally;
