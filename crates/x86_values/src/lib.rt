//! Bytes and flags that are known or unspecified, words of four bytes, and what the operations of the processor make of them.
#![tactic(auto)]

mod answered;
mod byte;
mod conditions;
mod divided;
mod double_shifts;
mod extension;
mod laws;
mod logic;
mod operand;
mod power;
mod product;
mod result;
mod rotates;
mod scans;
mod shift_flags;
mod shifts;
mod size;
mod sum;
#[cfg(test)]
mod tests;
mod word;

pub use answered::Answered;
pub use byte::Byte;
pub use conditions::{condition, condition_laws, worked_conditions};
pub use divided::{Divided, divide, division_laws, worked_divisions};
pub use double_shifts::{double_shift, double_shift_laws, worked_double_shifts};
pub use extension::{bytes_swapped, extension_laws, sign_extended, sign_word, worked_extensions};
pub use laws::{less_specified_laws, word_laws};
pub use logic::{Bit, bitwise, logic_laws, worked_bitwise};
pub use product::{Product, multiply, product_laws, worked_products};
pub use scans::{scan, scan_laws, worked_scans};
pub use shifts::{shift, shift_laws, worked_shifts};
pub use size::{cut, number, worked_sizes};
pub use sum::{add, sub, sum_laws, worked_sums};
pub use word::{Flags, Word, known, word_of};
pub use x86_types::ShiftOp as Shifting;
