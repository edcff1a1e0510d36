// A system call.
ghost use Rattle.std.specs.Prelude.{◌≤◌};
ghost use Rattle.mem_pages.specs.Accesses.{KeepsPages};
ghost use Rattle.mem_pages.specs.Contents.{memory_in};
ghost use Rattle.memory.specs.SystemCall.{system_call};
ghost use Rattle.sw_host.specs.Told.{Tells};
ghost use Rattle.system_calls.specs.Making.{Makes, as_request};

use crate::asked::{Asked, call_of};
use crate::read::read;
use crate::write::write;
use crate::{CallOutcome, CallRequest};
use mem_pages::{Pages, RunEnd};
use std::alloc::{AllocError, Global};
use sw_host::Host;

/// Makes the system call `int 0x80` of Linux for the i386: exit is 1, read 3, write 4, and every other number ends the run. The memory that
/// a read or a write needs is had before the host is asked, so that what the host answered always counts.
pub fn make_call<H: Host>(
    alloc: Global,
    request: &CallRequest,
    pages: &mut Pages,
    host: &mut H,
) -> Result<CallOutcome, AllocError>
    ensures makes { Tells (H.told host.old) (H.told host.new)
        (Makes (system_call (as_request request.now) (memory_in pages.old)) result (memory_in pages.old) (memory_in pages.new)) }
    ensures keeps { KeepsPages pages.old pages.new }
    ensures faults { H.faults host.old ≤ H.faults host.new }
{
    match call_of(request) {
        Asked::Exit(status) => Ok(CallOutcome::Ended(RunEnd::Exited(status))),
        Asked::OtherCall(number) => Ok(CallOutcome::Ended(RunEnd::OtherCall(number))),
        Asked::Unspecified => Ok(CallOutcome::Ended(RunEnd::Unspecified)),
        Asked::Read(fd, at, count) => read(alloc, fd, at, count, pages, host),
        Asked::Write(fd, at, count) => write(alloc, fd, at, count, pages, host),
    }
}
