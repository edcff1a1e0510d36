// One step of an instruction, with the call that it may make.
ghost use Rattle.std.specs.Prelude.{◌≤◌};
ghost use Rattle.mem_pages.specs.Contents.{memory_in};
ghost use Rattle.sw_host.specs.Told.{Tells};
ghost use Rattle.x86_machine.specs.Turning.{StepsOn};

use crate::call::call;
use crate::kept::KeptInstr;
use mem_pages::{Pages, RunEnd};
use std::alloc::{AllocError, Global};
use sw_host::Host;
use x86_meaning::{Cpu, step_laws};
use x86_step::{Stepped, step_one};

/// Makes a step. The answer is how the run ends, if it does; where memory is wanting nothing has changed.
#[inline(always)]
pub(crate) fn make_step<H: Host>(
    alloc: Global,
    kept: &KeptInstr,
    cpu: &mut Cpu,
    pages: &mut Pages,
    host: &mut H,
) -> Result<Option<RunEnd>, AllocError>
    ensures steps { Tells (H.told host.old) (H.told host.new) (StepsOn kept.now.instr kept.now.len result cpu.old (memory_in pages.old) cpu.new (memory_in pages.new)) }
    ensures faults { H.faults host.old ≤ H.faults host.new }
{
    step_laws();
    let eip = cpu.eip;
    match step_one(&kept.instr, kept.len, cpu, pages) {
        Err(error) => Err(error),
        Ok(Stepped::Next) => Ok(None),
        Ok(Stepped::MemoryFault) => Ok(Some(RunEnd::MemoryFault)),
        Ok(Stepped::DivideFault) => Ok(Some(RunEnd::DivideFault)),
        Ok(Stepped::Unspecified) => Ok(Some(RunEnd::Unspecified)),
        Ok(Stepped::Call) => match call(alloc, cpu, pages, host) {
            Ok(end) => Ok(end),
            Err(error) => {
                cpu.eip = eip;
                Err(error)
            }
        },
    }
}
