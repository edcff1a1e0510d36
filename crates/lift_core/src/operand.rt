// Where the operands of an instruction stand for its operations.
use flag_ir::Term;

/// Where an operand stands: in a register by its number, from the byte with an index on; in memory, at the address that a term is; or
/// nowhere, since it is a number of the instruction's own.
#[derive(Clone, Copy, Debug, PartialEq, Eq)]
pub(crate) enum Operand {
    Register(u8, u8),
    Memory(Term),
    Constant(u32),
}
