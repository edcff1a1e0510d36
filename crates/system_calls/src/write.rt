// The call write.
ghost use Rattle.std.specs.Prelude.{◌≡◌, ◌≤◌, true, length, IfErr, IfOk};
ghost use Rattle.outside.specs.Environment.{next_answer};
ghost use Rattle.memory.specs.SystemCall as spec;
ghost use Rattle.mem_pages.specs.Contents.{memory_in};
ghost use Rattle.sw_host.specs.Told.{Tells};
ghost use Rattle.system_calls.specs.Making.{Makes};
ghost use Rattle.system_calls.specs.Plans.{write_plan_of};

use crate::CallOutcome;
use crate::result::{CAP, EBADF, EFAULT, error};
use mem_pages::{Pages, RunEnd};
use outside::Answer;
use std::alloc::{AllocError, Global};
use sw_host::Host;

// What a write comes to before the host is asked: a result; the end of the run, since a byte is unspecified; or the bytes to offer.
#[derive(Drop)]
enum WritePlan {
    Refused(u32),
    Stops,
    Asks(Vec<u8>),
}

// By the rules in their order.
fn write_plan(
    alloc: Global,
    fd: u32,
    at: u32,
    count: u32,
    pages: &Pages,
) -> Result<WritePlan, AllocError>
    ensures { IfOk result (λ plan. write_plan_of plan ≡ spec.write_plan (memory_in pages.now) fd at count) }
{
    if fd != 1 && fd != 2 {
        return Ok(WritePlan::Refused(error(EBADF)));
    }
    if count == 0 {
        return Ok(WritePlan::Refused(0));
    }
    if u64::from(at) + u64::from(count) > 0x1_0000_0000 || !pages.can_load(at, count) {
        return Ok(WritePlan::Refused(error(EFAULT)));
    }
    let mut bytes = vec![in alloc; 0u8; count.min(CAP) as usize]?;
    if pages.copy_known(at, bytes.as_mut_slice()) {
        Ok(WritePlan::Asks(bytes))
    } else {
        Ok(WritePlan::Stops)
    }
}

/// Makes a call of write.
pub(crate) fn write<H: Host>(
    alloc: Global,
    fd: u32,
    at: u32,
    count: u32,
    pages: &Pages,
    host: &mut H,
) -> Result<CallOutcome, AllocError>
    ensures makes { Tells (H.told host.old) (H.told host.new)
        (Makes (λ left. spec.write_call fd at count (memory_in pages.now) left) result (memory_in pages.now) (memory_in pages.now)) }
    ensures faults { H.faults host.old ≤ H.faults host.new }
{
    match write_plan(alloc, fd, at, count, pages)? {
        WritePlan::Refused(result) => Ok(CallOutcome::Returned(result)),
        WritePlan::Stops => Ok(CallOutcome::Ended(RunEnd::Unspecified)),
        WritePlan::Asks(bytes) => match host.put(fd, bytes.as_slice())? {
            Answer::Take(moved) => Ok(CallOutcome::Returned(moved)),
            Answer::Fail(number) => Ok(CallOutcome::Returned(error(number))),
        },
    }
}
