//! Placed code in which each name lives in a cell.
#![tactic(auto)]

mod cells;
mod holders;
mod items;
mod laws;
mod placing;
mod renaming;
#[cfg(test)]
mod tests;

pub use laws::cell_laws;
pub use placing::in_cells;
