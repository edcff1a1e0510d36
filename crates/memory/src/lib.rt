//! The memory of the machine, and the system call over it: definitions, with their laws.
#![tactic(auto)]

mod laws;

pub use laws::{
    call_laws, less_specified_memory_laws, memory_laws, worked_less_specified, worked_memory,
    worked_ranges,
};
