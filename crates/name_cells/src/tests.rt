// What no clause says: that the code is placed with ample memory.
ghost use Rattle.std.specs.Prelude.{◌≡◌, IfOk};
ghost use Rattle.name_cells.specs.SmallCode.{small_code};

use crate::in_cells;
use named_code::{PInstr, Slot, SlotList, VBlock, VCode, VInstr, VInstrList};
use smallvec::SmallVec;
use std::alloc::{AllocError, Global};
use std::test::Fail;
use x86_types::{Cond, Instr, Reg, Rm};

// SETE of name 2.
fn small_code(alloc: Global) -> Result<VCode, AllocError>
    ensures { IfOk result (λ code. code ≡ small_code) }
{
    let mut slots = SmallVec::new(alloc);
    slots.push(Slot::Name(2))?;
    let mut instrs = Vec::new(alloc);
    instrs.push(VInstr {
        instr: Instr::Setcc {
            cond: Cond::E,
            to: Rm::Reg(Reg::Eax),
        },
        slots: SlotList::new(slots),
    })?;
    let mut blocks = Vec::new(alloc);
    blocks.push(VBlock {
        number: 5,
        at: 4096,
        code: VInstrList::new(instrs),
    })?;
    Ok(VCode::new(blocks))
}

// mov [spare], ebx; mov ebx, [name 2]; sete bl; mov [name 2], ebx; mov ebx, [spare]
#[test]
fn places_a_condition(rt: HostRuntime) -> Result<(), Fail> {
    let code = small_code(rt.alloc())?;
    let placed = in_cells(rt.alloc(), &code)?;
    let homes = placed.homes.as_slice();
    assert_eq!(rt; homes.len(), 4);
    assert_eq!(rt; homes[2].cell, 0x7522_0008);
    let blocks = placed.blocks.as_slice();
    assert_eq!(rt; blocks.len(), 1);
    let own = Instr::Setcc {
        cond: Cond::E,
        to: Rm::Reg(Reg::Ebx),
    };
    let wanted = [
        PInstr::Keep(3, Reg::Ebx),
        PInstr::Fetch(2, Reg::Ebx),
        PInstr::Own(own),
        PInstr::Keep(2, Reg::Ebx),
        PInstr::Fetch(3, Reg::Ebx),
    ];
    assert_eq!(rt; blocks[0].code.as_slice(), wanted.as_slice());
    Ok(())
}
