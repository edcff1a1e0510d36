//! The instructions, straight runs and tables of an image, read at their addresses.
#![tactic(auto)]

mod bound;
mod indexed;
mod instructions;
mod pages;
mod run;
mod span;
mod tables;
#[cfg(test)]
mod tests;
mod words;

pub use indexed::IndexedImage;
pub use run::{ends_run, run_of};
pub use span::CodeSpan;
pub use tables::table_at;
