//! The machine that runs the program of an image over a host.
#![tactic(auto)]

mod call;
mod code;
mod kept;
mod machine;
mod start;
mod step;
#[cfg(test)]
mod tests;
mod turn;

pub use machine::Machine;
pub use start::first_pages;
