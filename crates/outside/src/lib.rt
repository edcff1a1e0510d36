//! What the outside of a program has for it: its input, and its answers to the calls that read and write.
#![tactic(auto)]

mod answer;
mod laws;

pub use answer::Answer;
pub use laws::worked_answers;
