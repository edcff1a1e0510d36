// Procedures with frames of their own.
ghost use Rattle.std.specs.Prelude.{◌≡◌};

use crate::BlockList;
use std::marker::Model;

/// Which addresses reach a frame: none (`Sealed`), those of the frame itself (`Guarded`), or those of a chain of frames (`Shared`).
#[derive(Clone, Copy, Debug, PartialEq, Eq)]
pub enum FrameKind {
    Sealed,
    Guarded,
    Shared,
}

/// The place of the old frame that a local stands for: an offset from esp at the entry, and a size of 1, 2 or 4 bytes.
#[derive(Clone, Copy, Debug, PartialEq, Eq)]
pub struct LocalSlot {
    pub offset: i32,
    pub size: u8,
}

/// A list of locals. It is made from a `Vec` and gives it back, both without taking memory.
#[derive(Debug, Drop)]
pub struct LocalList {
    slots: Vec<LocalSlot>,
}

impl Model for LocalList {
    ghost use Rattle.std.specs.Prelude.{List};
    ghost use Rattle.flag_ir.specs.declared.procedure.LocalSlot.{LocalSlot};

    ghost Value = { List LocalSlot };

    ghost view = { λ l. l.slots.items };
}

impl LocalList {
    /// The list of a `Vec`'s locals.
    pub fn new(slots: Vec<LocalSlot>) -> LocalList
        ensures { result ≡ slots.items }
    {
        LocalList { slots }
    }

    /// The locals, in order.
    pub fn as_slice(&self) -> &[LocalSlot]
        ensures { result.now ≡ self.now }
    {
        self.slots.as_slice()
    }

    /// The locals, in order, as a `Vec`.
    pub fn into_vec(self) -> Vec<LocalSlot>
        ensures { result.items ≡ self }
    {
        self.slots
    }
}

/// A procedure: the old address of its entry, the kind of its frames, the bytes of a frame below esp at the entry, the argument words
/// above the return word, the locals, and the blocks.
#[derive(Debug, Drop)]
pub struct Proc {
    pub entry: u32,
    pub kind: FrameKind,
    pub depth: u32,
    pub args: u32,
    pub locals: LocalList,
    pub blocks: BlockList,
}

/// A list of procedures. It is made from a `Vec` and gives it back, both without taking memory.
#[derive(Debug, Drop)]
pub struct ProcList {
    procs: Vec<Proc>,
}

impl Model for ProcList {
    ghost use Rattle.std.specs.Prelude.{List};
    ghost use Rattle.flag_ir.specs.declared.procedure.Proc.{Proc};

    ghost Value = { List Proc };

    ghost view = { λ l. l.procs.items };
}

impl ProcList {
    /// The list of a `Vec`'s procedures.
    pub fn new(procs: Vec<Proc>) -> ProcList
        ensures { result ≡ procs.items }
    {
        ProcList { procs }
    }

    /// The procedures, in order.
    pub fn as_slice(&self) -> &[Proc]
        ensures { result.now ≡ self.now }
    {
        self.procs.as_slice()
    }

    /// The procedures, in order, as a `Vec`.
    pub fn into_vec(self) -> Vec<Proc>
        ensures { result.items ≡ self }
    {
        self.procs
    }
}
