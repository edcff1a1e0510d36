/// The operations on two operands, in the order of their numbers. Intel SDM volume 2, appendix
/// A, table A-6, group 1.
#[derive(Clone, Copy, Debug, PartialEq, Eq)]
pub enum AluOp {
    Add,
    Or,
    Adc,
    Sbb,
    And,
    Sub,
    Xor,
    Cmp,
}

/// The shifts and rotates, with the numbers 0, 1, 4, 5 and 7. Intel SDM volume 2, appendix A,
/// table A-6, group 2.
#[derive(Clone, Copy, Debug, PartialEq, Eq)]
pub enum ShiftOp {
    Rol,
    Ror,
    Shl,
    Shr,
    Sar,
}

/// The conditions, in the order of their numbers; the second of each pair is the contrary of the
/// first. Intel SDM volume 1, appendix B, table B-1.
#[derive(Clone, Copy, Debug, PartialEq, Eq)]
pub enum Cond {
    O,
    No,
    B,
    Ae,
    E,
    Ne,
    Be,
    A,
    S,
    Ns,
    P,
    Np,
    L,
    Ge,
    Le,
    G,
}

/// How far a shift goes: by a constant, or by the lowest byte of Ecx. Intel SDM volume 2,
/// "SAL/SAR/SHL/SHR".
#[derive(Clone, Copy, Debug, PartialEq, Eq)]
pub enum Count {
    Imm(u8),
    Cl,
}
