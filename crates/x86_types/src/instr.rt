use crate::operand::{Address, Reg, Rm, Src};
use crate::operation::{AluOp, Cond, Count, ShiftOp};
use crate::width::Width;

/// An instruction. Each variant names the pages of Intel SDM volume 2 whose forms it stands for;
/// which values of its fields have a spelling is no matter of this type.
#[derive(Clone, Copy, Debug, PartialEq, Eq)]
pub enum Instr {
    /// "ADD", "OR", "ADC", "SBB", "AND", "SUB", "XOR", "CMP".
    Alu {
        op: AluOp,
        width: Width,
        to: Rm,
        from: Src,
    },
    /// "TEST".
    Test {
        width: Width,
        left: Rm,
        right: Src,
    },
    /// "MOV".
    Mov {
        width: Width,
        to: Rm,
        from: Src,
    },
    /// "LEA".
    Lea {
        width: Width,
        to: Reg,
        at: Address,
    },
    /// "INC".
    Inc {
        width: Width,
        to: Rm,
    },
    /// "DEC".
    Dec {
        width: Width,
        to: Rm,
    },
    /// "NOT".
    Not {
        width: Width,
        to: Rm,
    },
    /// "NEG".
    Neg {
        width: Width,
        to: Rm,
    },
    /// "MUL".
    Mul {
        width: Width,
        from: Rm,
    },
    /// "IMUL", the form of one operand.
    ImulWide {
        width: Width,
        from: Rm,
    },
    /// "DIV".
    Div {
        width: Width,
        from: Rm,
    },
    /// "IDIV".
    Idiv {
        width: Width,
        from: Rm,
    },
    /// "IMUL", the form of two operands.
    Imul {
        width: Width,
        to: Reg,
        from: Rm,
    },
    /// "IMUL", the form of three operands.
    ImulBy {
        width: Width,
        to: Reg,
        from: Rm,
        by: u32,
    },
    /// "SAL/SAR/SHL/SHR", "RCL/RCR/ROL/ROR".
    Shift {
        op: ShiftOp,
        width: Width,
        to: Rm,
        count: Count,
    },
    /// "SHLD".
    Shld {
        to: Rm,
        from: Reg,
        count: Count,
    },
    /// "SHRD".
    Shrd {
        to: Rm,
        from: Reg,
        count: Count,
    },
    /// "PUSH".
    Push {
        from: Src,
    },
    /// "POP".
    Pop {
        to: Rm,
    },
    /// "XCHG".
    Xchg {
        width: Width,
        left: Rm,
        right: Reg,
    },
    /// "MOVZX": a source of `width` to a target of `wide`.
    Movzx {
        wide: Width,
        width: Width,
        to: Reg,
        from: Rm,
    },
    /// "MOVSX": a source of `width` to a target of `wide`.
    Movsx {
        wide: Width,
        width: Width,
        to: Reg,
        from: Rm,
    },
    /// "CMOVcc".
    Cmov {
        cond: Cond,
        width: Width,
        to: Reg,
        from: Rm,
    },
    /// "SETcc".
    Setcc {
        cond: Cond,
        to: Rm,
    },
    /// "CBW/CWDE/CDQE".
    Extend {
        width: Width,
    },
    /// "CWD/CDQ/CQO".
    Spread {
        width: Width,
    },
    /// "BSF".
    Bsf {
        width: Width,
        to: Reg,
        from: Rm,
    },
    /// "BSR".
    Bsr {
        width: Width,
        to: Reg,
        from: Rm,
    },
    /// "BSWAP".
    Bswap {
        to: Reg,
    },
    /// "MOVS/MOVSB/MOVSW/MOVSD/MOVSQ", "REP".
    Movs {
        width: Width,
        repeat: bool,
    },
    /// "STOS/STOSB/STOSW/STOSD/STOSQ", "REP".
    Stos {
        width: Width,
        repeat: bool,
    },
    /// "JMP", relative; `by` counts from the next instruction, modulo 2^32.
    Jmp {
        by: u32,
    },
    /// "JMP", near and absolute.
    JmpTo {
        to: Rm,
    },
    /// "CALL", near and absolute.
    CallTo {
        to: Rm,
    },
    /// "Jcc"; `by` counts from the next instruction, modulo 2^32.
    Jcc {
        cond: Cond,
        by: u32,
    },
    /// "CALL", relative; `by` counts from the next instruction, modulo 2^32.
    Call {
        by: u32,
    },
    /// "RET", near; `drop` bytes are dropped behind the address.
    Ret {
        drop: u16,
    },
    /// "LEAVE".
    Leave,
    /// "INT n", with 80 in hexadecimal.
    Int80,
    /// "CLD".
    Cld,
    /// "NOP", and "ENDBR32", which does nothing here.
    Nop,
}
