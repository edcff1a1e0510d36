//! An instruction as text.
#![tactic(auto)]

mod instr_text;
mod operand_text;
#[cfg(test)]
mod tests;

pub use instr_text::InstrText;
