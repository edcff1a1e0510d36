//! How many steps and how many bytes of new code an operation of a unit takes, an instruction, and a turn.
#![tactic(auto)]

mod laws;

pub use laws::{length_laws, operation_laws, turn_bounds};
