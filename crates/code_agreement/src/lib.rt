//! The layers of new code for a program together: the new code does what the program does.
#![tactic(auto)]

mod laws;

pub use laws::agreement_law;
