//! Writing an instruction as bytes: its best spelling.
#![tactic(auto)]

mod arithmetic;
mod encoder;
mod forms;
mod jumps;
mod laws;
mod moves;
mod offer;
mod operand;
mod order;
mod parts;
mod put;
mod read_back;
mod steps;
#[cfg(test)]
mod tests;
mod text;

pub use encoder::{encode, encode_wide};
pub use laws::{best_laws, best_lengths, worked_best};
pub use read_back::{round_trip, round_trip_wide};
