// The step of a system call.
ghost use Rattle.std.specs.Prelude.{◌≡◌, ◌≤◌};
ghost use Rattle.mem_pages.specs.Contents.{memory_in};
ghost use Rattle.sw_host.specs.Told.{Tells};
ghost use Rattle.system_calls.specs.Making.{as_request};
ghost use Rattle.x86_values.specs.Words as words;
ghost use Rattle.x86_meaning.specs.Registers.{with_register};
ghost use Rattle.x86_step.specs.Steps.{registers_of};
ghost use Rattle.x86_machine.specs.Turning.{asked, CallsOn};

use mem_pages::{Pages, RunEnd};
use std::alloc::{AllocError, Global};
use sw_host::Host;
use system_calls::{CallOutcome, CallRequest, make_call};
use x86_meaning::Cpu;
use x86_values::{Word, known, word_of};

// What a system call is asked by.
#[tactic(auto, unfolding(x86_values::specs::Words::word_of))]
fn request(cpu: &Cpu) -> CallRequest
    ensures { as_request result ≡ asked cpu.now }
{
    CallRequest {
        number: cpu.regs[0],
        fd: cpu.regs[3],
        at: cpu.regs[1],
        count: cpu.regs[2],
    }
}

// Makes eax another word.
#[tactic(auto, using(crate::proofs::Calling::regs_set))]
fn set_eax(regs: &mut [Word; 8], word: Word)
    ensures { registers_of regs.new ≡ with_register 0 word (registers_of regs.old) }
{
    regs[0] = word;
}

// esp, where it is known.
#[tactic(auto, unfolding(x86_values::specs::Words::word_of))]
fn known_esp(cpu: &Cpu) -> Option<u32>
    ensures { result ≡ words.known (registers_of cpu.now.regs 4) }
{
    known(cpu.regs[4])
}

/// Makes a system call, where eip has moved on. Its result goes to eax, and the stack below esp is forgotten. The answer is how the run
/// ends, if it does.
pub(crate) fn call<H: Host>(
    alloc: Global,
    cpu: &mut Cpu,
    pages: &mut Pages,
    host: &mut H,
) -> Result<Option<RunEnd>, AllocError>
    ensures calls { Tells (H.told host.old) (H.told host.new) (CallsOn result cpu.old (memory_in pages.old) cpu.new (memory_in pages.new)) }
    ensures faults { H.faults host.old ≤ H.faults host.new }
{
    let request = request(cpu);
    match make_call(alloc, &request, pages, host) {
        Err(error) => Err(error),
        Ok(CallOutcome::Ended(end)) => Ok(Some(end)),
        Ok(CallOutcome::Returned(result)) => {
            set_eax(&mut cpu.regs, word_of(result));
            match known_esp(cpu) {
                None => Ok(Some(RunEnd::Unspecified)),
                Some(esp) => {
                    pages.forget_below(esp);
                    Ok(None)
                }
            }
        }
    }
}
