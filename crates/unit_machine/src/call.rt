// System calls.
ghost use Rattle.std.specs.Prelude.{◌≡◌, ◌≤◌};
ghost use Rattle.outside.specs.Environment.{Environment};
ghost use Rattle.memory.specs.Memory.{Memory};
ghost use Rattle.mem_pages.specs.Contents.{memory_in};
ghost use Rattle.sw_host.specs.Told.{Tells};
ghost use Rattle.system_calls.specs.Making.{as_request};
ghost use Rattle.flag_ir.specs.declared.operation.Op.TheVariants as ops;
ghost use Rattle.flag_ir.specs.declared.variable.Var.TheVariants as variable;
ghost use Rattle.flag_ir.specs.Operations.{request_in};
ghost use Rattle.unit_machine.specs.Performing.{PerformsOp};
ghost use Rattle.unit_machine.specs.Standing.{Puts, storage_of};

use crate::values::Values;
use mem_pages::{Pages, RunEnd};
use std::alloc::{AllocError, Global};
use sw_host::Host;
use system_calls::{CallOutcome, CallRequest, make_call};
use x86_values::{Word, word_of};

// What a call is asked by.
fn request(values: &Values) -> CallRequest
    ensures { (m : Memory) (left : Environment) → as_request result ≡ request_in (storage_of values.now m left) }
{
    CallRequest {
        number: values.regs[0],
        fd: values.regs[3],
        at: values.regs[1],
        count: values.regs[2],
    }
}

// Makes register 0 another word, which takes no memory.
#[tactic(auto, using(crate::proofs::Words::puts_register))]
fn put_result(values: &mut Values, word: Word)
    ensures { Puts (variable.Reg 0) word values.old values.new }
{
    values.regs[0] = word;
}

/// Makes a system call. Its result goes to register 0. The answer is how the run ends, if it does.
pub(crate) fn call<H: Host>(
    alloc: Global,
    values: &mut Values,
    pages: &mut Pages,
    host: &mut H,
) -> Result<Option<RunEnd>, AllocError>
    ensures calls { Tells (H.told host.old) (H.told host.new) (PerformsOp ops.System result values.old (memory_in pages.old) values.new (memory_in pages.new)) }
    ensures faults { H.faults host.old ≤ H.faults host.new }
{
    let request = request(values);
    match make_call(alloc, &request, pages, host) {
        Err(error) => Err(error),
        Ok(CallOutcome::Ended(end)) => Ok(Some(end)),
        Ok(CallOutcome::Returned(result)) => {
            put_result(values, word_of(result));
            Ok(None)
        }
    }
}
