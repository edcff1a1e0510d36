// What operations read and write.

/// A variable of a unit: a register by its number (0 to 7, as in ModRM), a flag (0 carry, 1 parity, 2 zero, 3 sign, 4 overflow), a
/// temporary of the block, or a local of the procedure.
#[derive(Clone, Copy, Debug, PartialEq, Eq)]
pub enum Var {
    Reg(u8),
    Flag(u8),
    Temp(u32),
    Local(u32),
}

/// What an operation reads: a variable or a word.
#[derive(Clone, Copy, Debug, PartialEq, Eq)]
pub enum Term {
    Var(Var),
    Word(u32),
}
