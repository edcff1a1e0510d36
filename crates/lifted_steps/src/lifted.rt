// The list of an instruction in place of its step.
use crate::storing::take_stored;
use crate::unit::{ENTRY, unit_of};
use flag_ir::Unit;
use mem_pages::{Pages, RunEnd};
use std::alloc::{AllocError, Global};
use sw_host::MemoryHost;
use unit_form::{is_in_form, needs_no_frame};
use unit_machine::{UnitEnd, run_unit};
use x86_decode::{Decoded, decode};
use x86_meaning::Cpu;
use x86_step::Stepped;

/// More operations and exits than the unit of an instruction has.
const BUDGET: u64 = 1000;

// Runs the unit; none where it isn't in form.
fn end_of(alloc: Global, unit: &Unit, pages: &mut Pages) -> Result<Option<UnitEnd>, AllocError> {
    if !is_in_form(unit) || !needs_no_frame(unit) {
        return Ok(None);
    }
    let mut host = MemoryHost::new(alloc);
    Ok(Some(run_unit(alloc, unit, pages, ENTRY, 0, &mut host, BUDGET)?))
}

// What the end of the unit says of the step. A system call is one where it ends the run.
fn stepped_of(end: Option<UnitEnd>) -> Option<Stepped> {
    match end {
        Some(UnitEnd::Stopped(_)) => Some(Stepped::Next),
        Some(UnitEnd::Run(RunEnd::Exited(_) | RunEnd::OtherCall(_))) => Some(Stepped::Call),
        Some(UnitEnd::Run(RunEnd::MemoryFault)) => Some(Stepped::MemoryFault),
        Some(UnitEnd::Run(RunEnd::DivideFault)) => Some(Stepped::DivideFault),
        Some(UnitEnd::Run(RunEnd::Unspecified)) => Some(Stepped::Unspecified),
        Some(UnitEnd::Run(RunEnd::Outside | RunEnd::Spent)) | None => None,
    }
}

/// Runs the list of the instruction that the bytes begin with, and goes on by its way: to the next instruction, with the registers and flags
/// after it, or to an end, which leaves them as they were. None where the bytes begin with no instruction.
pub fn lifted_step(
    alloc: Global,
    bytes: &[u8],
    cpu: &mut Cpu,
    pages: &mut Pages,
) -> Result<Option<Stepped>, AllocError> {
    let Decoded::One(instr, len) = decode(bytes) else {
        return Ok(None);
    };
    let unit = unit_of(alloc, cpu, &instr, len)?;
    let end = end_of(alloc, &unit, pages)?;
    if let Some(UnitEnd::Stopped(eip)) = end {
        take_stored(pages, cpu);
        cpu.eip = eip;
    }
    Ok(stepped_of(end))
}
