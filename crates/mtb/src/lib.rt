// The library for C: each call that a board makes, and the work memory it needs, as functions that include/mtb.h declares.
#![tactic(auto)]

mod alignment;
mod bitmaps;
mod greys;
mod live_bracket;
mod p6;
mod views;
