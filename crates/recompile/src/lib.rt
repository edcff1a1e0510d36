//! Recompiling an image: from its found code to the segments of the new program.
#![tactic(auto)]

mod placed;
mod recompiler;

pub use recompiler::recompile;
