//! Lists of bytes that contracts see as lists, and numbers as bytes, the lowest byte first.
#![tactic(auto)]

mod laws;
mod list;
mod reading;
#[cfg(test)]
mod tests;
mod writing;

pub use laws::{little_endian_laws, worked_numbers};
pub use list::ByteList;
pub use reading::{half_at, word_at};
pub use writing::{push_halves, push_word, push_words, push_zeros};
