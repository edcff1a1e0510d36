// The operations of a unit.
ghost use Rattle.std.specs.Prelude.{◌≡◌};

use crate::{Term, Var};
use std::marker::Model;

/// A calculation on two words. `Mulhu` and `Mulhs` give the upper word of the unsigned and of the signed product, `Ltu` and `Lts`
/// compare unsigned and signed numbers.
#[derive(Clone, Copy, Debug, PartialEq, Eq)]
pub enum Calc {
    Add,
    Sub,
    And,
    Or,
    Xor,
    Mul,
    Mulhu,
    Mulhs,
    Shl,
    Shr,
    Sar,
    Eq,
    Ltu,
    Lts,
}

/// An operation. Sizes are 1, 2 or 4 bytes, offsets count from esp at the entry of the innermost open frame.
#[derive(Clone, Copy, Debug, Default, PartialEq, Eq)]
pub enum Op {
    /// Copies a word.
    Set {
        to: Var,
        from: Term,
    },
    /// Computes a word of two.
    Calc {
        to: Var,
        calc: Calc,
        left: Term,
        right: Term,
    },
    /// Makes a variable unspecified.
    Forget {
        to: Var,
    },
    /// Takes `yes` where `test` isn't 0, else `no`.
    Pick {
        to: Var,
        test: Term,
        yes: Term,
        no: Term,
    },
    /// Ends the run where the term has an unspecified byte.
    Need {
        from: Term,
    },
    /// Divides `high` and `low` of a size by a number of that size.
    Divide {
        quotient: Var,
        remainder: Var,
        high: Term,
        low: Term,
        by: Term,
        size: u8,
        signed: bool,
    },
    /// Loads from memory.
    Load {
        to: Var,
        size: u8,
        at: Term,
    },
    /// Stores to memory.
    Store {
        size: u8,
        at: Term,
        from: Term,
    },
    /// Loads from the frame or from memory, by a guarded address.
    NearLoad {
        to: Var,
        size: u8,
        at: Term,
    },
    /// Stores to the frame or to memory, by a guarded address.
    NearStore {
        size: u8,
        at: Term,
        from: Term,
    },
    /// Loads from a fixed place of the frame.
    Get {
        to: Var,
        size: u8,
        offset: i32,
    },
    /// Stores to a fixed place of the frame.
    Put {
        size: u8,
        offset: i32,
        from: Term,
    },
    /// Makes a system call.
    #[default]
    System,
    /// Makes a system call whose buffer may stand in the frame.
    NearSystem,
}

/// A list of operations. It is made from a `Vec` and gives it back, both without taking memory.
#[derive(Debug, Drop)]
pub struct OpList {
    ops: Vec<Op>,
}

impl Model for OpList {
    ghost use Rattle.std.specs.Prelude.{List};
    ghost use Rattle.flag_ir.specs.declared.operation.Op.{Op};

    ghost Value = { List Op };

    ghost view = { λ l. l.ops.items };
}

impl OpList {
    /// The list of a `Vec`'s operations.
    pub fn new(ops: Vec<Op>) -> OpList
        ensures { result ≡ ops.items }
    {
        OpList { ops }
    }

    /// The operations, in order.
    pub fn as_slice(&self) -> &[Op]
        ensures { result.now ≡ self.now }
    {
        self.ops.as_slice()
    }

    /// The operations, in order, as a `Vec`.
    pub fn into_vec(self) -> Vec<Op>
        ensures { result.items ≡ self }
    {
        self.ops
    }
}
