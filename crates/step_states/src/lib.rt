//! States of the processor as records of 128 bytes: the state before a step, the step, and what is printed of the state after it.
#![tactic(auto)]

mod single;
mod state;
mod window;

pub use single::single_step;
pub use state::{CODE, RECORD, cpu_of, printed};
pub use window::{fill_window, mapped};
