//! The compiler's choice of instructions: named code for lowered units.
#![tactic(auto)]

mod blocks;
mod calculations;
mod divisions;
mod instrs;
mod laws;
mod names;
mod operations;
mod rows;
#[cfg(test)]
mod tests;

pub use blocks::choose;
pub use laws::choosing_laws;
pub use rows::worked_lists;
