//! The outside, as the program sees it: files, input, writes and lines; and a host in memory.
#![tactic(auto)]

mod host;
mod laws;
mod lines;
mod memory;
mod moved;
mod script;

pub use host::{Host, HostFault};
pub use laws::host_laws;
pub use lines::LineList;
pub use memory::MemoryHost;
pub use moved::{Moved, MovedList};

#[cfg(test)]
mod tests;
