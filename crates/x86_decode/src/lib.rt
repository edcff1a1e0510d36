//! Which instruction the front of a list of bytes spells.
#![tactic(auto)]

mod decoding;
mod meaning;
mod operand;
mod reading;
#[cfg(test)]
mod tests;

pub use decoding::{Decoded, decode};
