// What stands in the register fields of an instruction.
ghost use Rattle.std.specs.Prelude.{◌≡◌};

use smallvec::SmallVec;
use std::alloc::Global;
use std::marker::Model;
use x86_types::Reg;

/// What stands in a register field: a register, or a name, which is none of them.
#[derive(Clone, Copy, Debug, PartialEq, Eq)]
pub enum Slot {
    Fixed(Reg),
    Name(u32),
}

/// The name 0, as what stands in an array before slots are written to it.
impl Default for Slot {
    fn default() -> Slot {
        Slot::Name(0)
    }
}

/// The slots of an instruction. It is made from a `SmallVec` and gives its slots without taking memory.
#[derive(Drop)]
pub struct SlotList {
    slots: SmallVec<Slot, 3, Global>,
}

impl Model for SlotList {
    ghost use Rattle.std.specs.Prelude.{List};
    ghost use Rattle.named_code.specs.declared.slot.Slot.{Slot};

    ghost Value = { List Slot };

    ghost view = { λ l. l.slots.items };
}

impl SlotList {
    /// The list of a `SmallVec`'s slots.
    pub fn new(slots: SmallVec<Slot, 3, Global>) -> SlotList
        ensures { result ≡ slots.items }
    {
        SlotList { slots }
    }

    /// The slots, in order.
    pub fn as_slice(&self) -> &[Slot]
        ensures { result.now ≡ self.now }
    {
        self.slots.as_slice()
    }
}
