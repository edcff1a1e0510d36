//! The layout of placed code as the segments of a written file.
#![tactic(auto)]

mod layout;
mod segments;
mod span;

pub use layout::{Layout, lay};
