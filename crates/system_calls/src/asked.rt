// Which call a request asks for.
ghost use Rattle.std.specs.Prelude.{◌≡◌, true, if◌then◌else◌};
ghost use Rattle.outside.specs.Environment.{Environment};
ghost use Rattle.memory.specs.Memory.{Memory};
ghost use Rattle.x86_values.specs.Words as words;
ghost use Rattle.memory.specs.SystemCall.{exit_call, read_call, write_call, system_call, transfer_call};
ghost use Rattle.system_calls.specs.Making.{as_request};
ghost use Rattle.system_calls.specs.Plans.{call_asked};

use crate::CallRequest;
use x86_values::{Byte, known};

/// What a request asks for: an end of the run, or a transfer by descriptor, address and count.
pub(crate) enum Asked {
    Exit(u8),
    OtherCall(u32),
    Unspecified,
    Read(u32, u32, u32),
    Write(u32, u32, u32),
}

/// By the number of the call, and then by what that call looks at.
#[tactic(auto, unfolding(memory::specs::SystemCall::system_call))]
pub(crate) fn call_of(request: &CallRequest) -> Asked
    ensures { (m : Memory) (left : Environment) → system_call (as_request request.now) m left ≡ call_asked result m left }
{
    match known(request.number) {
        None => Asked::Unspecified,
        Some(1) => exit(request.fd.b0),
        Some(3) => transfer(request, true),
        Some(4) => transfer(request, false),
        Some(number) => Asked::OtherCall(number),
    }
}

// The status of an exit has to be known.
fn exit(status: Byte) -> Asked
    ensures { (m : Memory) (left : Environment) → exit_call (words.known_byte status) ≡ call_asked result m left }
{
    match status {
        Byte::Known(status) => Asked::Exit(status),
        Byte::Unspecified => Asked::Unspecified,
    }
}

// So have the descriptor, the address and the count of a transfer.
fn transfer(request: &CallRequest, reads: bool) -> Asked
    ensures { (m : Memory) (left : Environment) → transfer_call (if reads then read_call else write_call)
        (words.known request.now.fd) (words.known request.now.at) (words.known request.now.count) m left ≡ call_asked result m left }
{
    match (known(request.fd), known(request.at), known(request.count)) {
        (Some(fd), Some(at), Some(count)) if reads => Asked::Read(fd, at, count),
        (Some(fd), Some(at), Some(count)) => Asked::Write(fd, at, count),
        _ => Asked::Unspecified,
    }
}
