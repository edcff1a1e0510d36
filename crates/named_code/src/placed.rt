// Placed code: named code whose names have registers and cells.
ghost use Rattle.std.specs.Prelude.{◌≡◌};

use std::marker::Model;
use x86_types::{Instr, Reg};

/// Where a name has its home: the address of its cell, a word of memory, and a register, where it has one.
#[derive(Clone, Copy, Debug, PartialEq, Eq)]
pub struct Home {
    pub register: Option<Reg>,
    pub cell: u32,
}

/// A list of homes. It is made from a `Vec` and gives it back, both without taking memory.
#[derive(Drop)]
pub struct HomeList {
    homes: Vec<Home>,
}

impl Model for HomeList {
    ghost use Rattle.std.specs.Prelude.{List};
    ghost use Rattle.named_code.specs.declared.placed.Home.{Home};

    ghost Value = { List Home };

    ghost view = { λ l. l.homes.items };
}

impl HomeList {
    /// The list of a `Vec`'s homes.
    pub fn new(homes: Vec<Home>) -> HomeList
        ensures { result ≡ homes.items }
    {
        HomeList { homes }
    }

    /// The homes, in order.
    pub fn as_slice(&self) -> &[Home]
        ensures { result.now ≡ self.now }
    {
        self.homes.as_slice()
    }

    /// The homes, in order, as a `Vec`.
    pub fn into_vec(self) -> Vec<Home>
        ensures { result.items ≡ self }
    {
        self.homes
    }
}

/// An item of placed code: an instruction of the named code with registers in its slots; the MOV of a name from its cell to a register;
/// the MOV of a register to a name's cell.
#[derive(Clone, Copy, Debug, PartialEq, Eq)]
pub enum PInstr {
    Own(Instr),
    Fetch(u32, Reg),
    Keep(u32, Reg),
}

/// A list of items. It is made from a `Vec` and gives it back, both without taking memory.
#[derive(Drop)]
pub struct PInstrList {
    items: Vec<PInstr>,
}

impl Model for PInstrList {
    ghost use Rattle.std.specs.Prelude.{List};
    ghost use Rattle.named_code.specs.declared.placed.PInstr.{PInstr};

    ghost Value = { List PInstr };

    ghost view = { λ l. l.items.items };
}

impl PInstrList {
    /// The list of a `Vec`'s items.
    pub fn new(items: Vec<PInstr>) -> PInstrList
        ensures { result ≡ items.items }
    {
        PInstrList { items }
    }

    /// The items, in order.
    pub fn as_slice(&self) -> &[PInstr]
        ensures { result.now ≡ self.now }
    {
        self.items.as_slice()
    }

    /// The items, in order, as a `Vec`.
    pub fn into_vec(self) -> Vec<PInstr>
        ensures { result.items ≡ self }
    {
        self.items
    }
}

/// A block of placed code, with the number and the old address of the named one.
#[derive(Drop)]
pub struct PBlock {
    pub number: u32,
    pub at: u32,
    pub code: PInstrList,
}

/// A list of blocks. It is made from a `Vec` and gives it back, both without taking memory.
#[derive(Drop)]
pub struct PBlockList {
    blocks: Vec<PBlock>,
}

impl Model for PBlockList {
    ghost use Rattle.std.specs.Prelude.{List};
    ghost use Rattle.named_code.specs.declared.placed.PBlock.{PBlock};

    ghost Value = { List PBlock };

    ghost view = { λ l. l.blocks.items };
}

impl PBlockList {
    /// The list of a `Vec`'s blocks.
    pub fn new(blocks: Vec<PBlock>) -> PBlockList
        ensures { result ≡ blocks.items }
    {
        PBlockList { blocks }
    }

    /// The blocks, in order.
    pub fn as_slice(&self) -> &[PBlock]
        ensures { result.now ≡ self.now }
    {
        self.blocks.as_slice()
    }

    /// The blocks, in order, as a `Vec`.
    pub fn into_vec(self) -> Vec<PBlock>
        ensures { result.items ≡ self }
    {
        self.blocks
    }
}

/// Placed code: the home at index n is that of name n.
#[derive(Drop)]
pub struct Placed {
    pub homes: HomeList,
    pub blocks: PBlockList,
}
