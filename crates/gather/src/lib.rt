// 64 flags gathered into a word: first as 8 by 8 bits by columns, then turned.
#![tactic(auto)]

pub mod columns;
pub mod turning;
