// Named code: blocks of instructions over registers and names.
ghost use Rattle.std.specs.Prelude.{◌≡◌};

use crate::SlotList;
use std::marker::Model;
use x86_types::Instr;

/// An instruction and what stands in its register fields. The fields are counted from 0 on in the order in which `Instr` has them, an
/// address's base before its index; the field with number k holds the register with number k, and slot k stands in its place.
#[derive(Drop)]
pub struct VInstr {
    pub instr: Instr,
    pub slots: SlotList,
}

/// A list of instructions. It is made from a `Vec` and gives it back, both without taking memory.
#[derive(Drop)]
pub struct VInstrList {
    instrs: Vec<VInstr>,
}

impl Model for VInstrList {
    ghost use Rattle.std.specs.Prelude.{List};
    ghost use Rattle.named_code.specs.declared.named.VInstr.{VInstr};

    ghost Value = { List VInstr };

    ghost view = { λ l. l.instrs.items };
}

impl VInstrList {
    /// The list of a `Vec`'s instructions.
    pub fn new(instrs: Vec<VInstr>) -> VInstrList
        ensures { result ≡ instrs.items }
    {
        VInstrList { instrs }
    }

    /// The instructions, in order.
    pub fn as_slice(&self) -> &[VInstr]
        ensures { result.now ≡ self.now }
    {
        self.instrs.as_slice()
    }

    /// The instructions, in order, as a `Vec`.
    pub fn into_vec(self) -> Vec<VInstr>
        ensures { result.items ≡ self }
    {
        self.instrs
    }
}

/// A block: its number, the old address at which it is entered (0 where it is entered by its number alone), and its instructions in
/// order. Jmp and Jcc name blocks by their numbers, and JmpTo leads to old addresses.
#[derive(Drop)]
pub struct VBlock {
    pub number: u32,
    pub at: u32,
    pub code: VInstrList,
}

/// Named code: a list of blocks. It is made from a `Vec` and gives it back, both without taking memory.
#[derive(Drop)]
pub struct VCode {
    blocks: Vec<VBlock>,
}

impl Model for VCode {
    ghost use Rattle.std.specs.Prelude.{List};
    ghost use Rattle.named_code.specs.declared.named.VBlock.{VBlock};

    ghost Value = { List VBlock };

    ghost view = { λ l. l.blocks.items };
}

impl VCode {
    /// The list of a `Vec`'s blocks.
    pub fn new(blocks: Vec<VBlock>) -> VCode
        ensures { result ≡ blocks.items }
    {
        VCode { blocks }
    }

    /// The blocks, in order.
    pub fn as_slice(&self) -> &[VBlock]
        ensures { result.now ≡ self.now }
    {
        self.blocks.as_slice()
    }

    /// The blocks, in order, as a `Vec`.
    pub fn into_vec(self) -> Vec<VBlock>
        ensures { result.items ≡ self }
    {
        self.blocks
    }
}
