//! The instructions, their operands and the numbers by which the manual names them, as values.
#![tactic(auto)]

mod instr;
mod numbers;
mod operand;
mod operation;
mod registers;
#[cfg(test)]
mod tests;
mod width;

pub use instr::Instr;
pub use numbers::{
    alu_at, alu_number, cond_at, cond_number, number_laws, reg_at, reg_number, shift_at,
    shift_number,
};
pub use operand::{Address, ByteRegister, Reg, Rm, Src};
pub use operation::{AluOp, Cond, Count, ShiftOp};
pub use registers::{byte_register, register_laws};
pub use width::Width;
