// Blocks of operations, each with its exit.
ghost use Rattle.std.specs.Prelude.{◌≡◌};

use crate::{OpList, Term};
use std::marker::Model;

/// How a block is left. Blocks are named by number, places of the old program by address.
#[derive(Clone, Copy, Debug, PartialEq, Eq)]
pub enum Exit {
    /// To a block.
    Go(u32),
    /// To the block `yes` where the test isn't 0, else to `no`.
    Branch { test: Term, yes: u32, no: u32 },
    /// To an old address.
    Jump { to: Term },
    /// Opens a frame of the procedure with this entry; its return goes on at the block `back`.
    CallProc { entry: u32, back: u32 },
    /// Closes the innermost frame, and goes on behind its call.
    Return,
    /// Ends the run by a memory fault.
    Fault,
    /// Stops the run.
    Stop,
}

/// A block: its number in its part of the unit, the old address at which it begins a turn (0 where it begins none), its operations in
/// order, and its exit.
#[derive(Debug, Drop)]
pub struct Block {
    pub number: u32,
    pub at: u32,
    pub ops: OpList,
    pub exit: Exit,
}

/// A list of blocks. It is made from a `Vec` and gives it back, both without taking memory.
#[derive(Debug, Drop)]
pub struct BlockList {
    blocks: Vec<Block>,
}

impl Model for BlockList {
    ghost use Rattle.std.specs.Prelude.{List};
    ghost use Rattle.flag_ir.specs.declared.block.Block.{Block};

    ghost Value = { List Block };

    ghost view = { λ l. l.blocks.items };
}

impl BlockList {
    /// The list of a `Vec`'s blocks.
    pub fn new(blocks: Vec<Block>) -> BlockList
        ensures { result ≡ blocks.items }
    {
        BlockList { blocks }
    }

    /// The blocks, in order.
    pub fn as_slice(&self) -> &[Block]
        ensures { result.now ≡ self.now }
    {
        self.blocks.as_slice()
    }

    /// The blocks, in order, as a `Vec`.
    pub fn into_vec(self) -> Vec<Block>
        ensures { result.items ≡ self }
    {
        self.blocks
    }
}
