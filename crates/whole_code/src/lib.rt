//! The unit of a whole program.
#![tactic(auto)]

mod above;
mod build;
mod laws;
mod lifted;
mod numbers;
mod targets;
#[cfg(test)]
mod tests;
mod unit;
mod ways;

pub use above::above_law;
pub use laws::one_stack_law;
pub use unit::whole;
pub use ways::{WayBlocks, way_blocks};
