// The items of one instruction. Each function appends some.
ghost use Rattle.std.specs.Prelude.{◌≡◌, ◌&&◌, ◌++◌, ◌∷◌, [], is_some, OnOk};
ghost use Rattle.name_cells.specs.Holders.{borrows_ebx, field_registers, last_name};
ghost use Rattle.name_cells.specs.Placing.{fetch_slot, fetches, give_back, keep_slot, keeps, lend, own, place_instr};

use crate::holders::{has_byte_field, holder, last_name, slot_register};
use crate::renaming::{FieldRegisters, renamed};
use named_code::{PInstr, Slot, VInstr};
use std::alloc::AllocError;
use x86_types::Reg;

fn push_fetch(
    items: &mut Vec<PInstr>,
    byte: bool,
    last: Option<u32>,
    slot: Slot,
) -> Result<(), AllocError>
    ensures { OnOk result (items.new.items ≡ items.old.items ++ fetch_slot byte last slot) }
{
    if let Slot::Name(name) = slot {
        items.push(PInstr::Fetch(name, holder(byte, last, name)))?;
    }
    Ok(())
}

fn push_keep(
    items: &mut Vec<PInstr>,
    byte: bool,
    last: Option<u32>,
    slot: Slot,
) -> Result<(), AllocError>
    ensures { OnOk result (items.new.items ≡ items.old.items ++ keep_slot byte last slot) }
{
    if let Slot::Name(name) = slot {
        items.push(PInstr::Keep(name, holder(byte, last, name)))?;
    }
    Ok(())
}

fn push_fetches(
    items: &mut Vec<PInstr>,
    byte: bool,
    last: Option<u32>,
    slots: &[Slot],
) -> Result<(), AllocError>
    ensures { OnOk result (items.new.items ≡ items.old.items ++ fetches byte last slots.now) }
{
    for slot in slots {
        push_fetch(items, byte, last, *slot)?;
    }
    Ok(())
}

fn push_keeps(
    items: &mut Vec<PInstr>,
    byte: bool,
    last: Option<u32>,
    slots: &[Slot],
) -> Result<(), AllocError>
    ensures { OnOk result (items.new.items ≡ items.old.items ++ keeps byte last slots.now) }
{
    for slot in slots {
        push_keep(items, byte, last, *slot)?;
    }
    Ok(())
}

/// The registers of an instruction's fields.
fn field_registers(byte: bool, last: Option<u32>, slots: &[Slot]) -> FieldRegisters
    requires { last ≡ last_name slots.now }
    ensures { result ≡ field_registers byte slots.now }
{
    FieldRegisters {
        first: slot_register(byte, last, slots, Reg::Eax),
        second: slot_register(byte, last, slots, Reg::Ecx),
        third: slot_register(byte, last, slots, Reg::Edx),
    }
}

// Whether EBX is borrowed.
fn borrows(byte: bool, last: Option<u32>) -> bool
    ensures { result ≡ (byte && is_some last) }
{
    byte && last.is_some()
}

fn push_lend(items: &mut Vec<PInstr>, borrows: bool, spare: u32) -> Result<(), AllocError>
    ensures { OnOk result (items.new.items ≡ items.old.items ++ lend borrows spare) }
{
    if borrows {
        items.push(PInstr::Keep(spare, Reg::Ebx))?;
    }
    Ok(())
}

fn push_give_back(items: &mut Vec<PInstr>, borrows: bool, spare: u32) -> Result<(), AllocError>
    ensures { OnOk result (items.new.items ≡ items.old.items ++ give_back borrows spare) }
{
    if borrows {
        items.push(PInstr::Fetch(spare, Reg::Ebx))?;
    }
    Ok(())
}

/// Appends the items of an instruction, where the cell with a name's number is spare.
pub(crate) fn push_instr(
    items: &mut Vec<PInstr>,
    spare: u32,
    instr: &VInstr,
) -> Result<(), AllocError>
    ensures { OnOk result (items.new.items ≡ items.old.items ++ place_instr spare instr.now) }
{
    let slots = instr.slots.as_slice();
    let byte = has_byte_field(instr.instr);
    let last = last_name(slots);
    let borrows = borrows(byte, last);
    push_lend(items, borrows, spare)?;
    push_fetches(items, byte, last, slots)?;
    let regs = field_registers(byte, last, slots);
    items.push(PInstr::Own(renamed(regs, instr.instr)))?;
    push_keeps(items, byte, last, slots)?;
    push_give_back(items, borrows, spare)?;
    Ok(())
}
