// The 1 bits of packed words: by a constant table of bytes, and of seven words at once by full adders.
#![tactic(auto)]

pub mod adder;
pub mod table;
