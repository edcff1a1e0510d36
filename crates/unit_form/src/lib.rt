//! Whether units are in form.
#![tactic(auto)]

mod blocks;
mod parts;
#[cfg(test)]
mod tests;
mod unit;

pub use unit::{is_in_form, needs_no_frame};
