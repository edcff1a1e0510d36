//! The top call: words to host calls, an end, its line and its status.
#![tactic(auto)]

mod command;
mod end;
mod laws;
mod rewriting;
mod running;
mod stack;
mod top;

pub use end::{End, status};
pub use laws::{command_laws, stack_laws, worked_rows, worked_runs};
pub use top::sw;
