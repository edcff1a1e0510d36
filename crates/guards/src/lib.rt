//! Lowering of units: no access of the program starts in the private area of the written file.
#![tactic(auto)]

mod area;
mod laws;
mod operations;
mod renumbering;
#[cfg(test)]
mod tests;
mod units;
mod worked;

pub use laws::renumbering_law;
pub use units::lower;
pub use worked::worked_units;
