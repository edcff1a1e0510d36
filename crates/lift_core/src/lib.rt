//! The operations of each instruction, and how it goes on.
#![tactic(auto)]

mod arithmetic;
mod laws;
mod lifting;
mod moves;
mod operand;
mod pieces;
mod stack;
mod terms;
#[cfg(test)]
mod tests;
mod way;

pub use laws::{lifting_laws, worked_lists};
pub use lifting::{exit_of, lift};
pub use way::Way;
