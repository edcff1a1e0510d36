//! Programs that are worked by hand: their code, their files, and what their runs write and come to.
#![tactic(auto)]

mod calls;
mod files;
mod inputs;
mod procedures;
mod program;

pub use calls::WITH_CALLS;
pub use files::{ADD_TWO, EXIT_SEVEN, file_of, linked_file};
pub use inputs::WITH_INPUT;
pub use procedures::WITH_PROCEDURES;
pub use program::Program;
