// What a call looks at.

use x86_values::Word;

/// What a system call looks at (Linux for the i386): the number of the call, eax; the file descriptor, ebx, whose lowest byte is the
/// status of an exit; the address of the buffer, ecx; how many bytes it has, edx.
#[derive(Clone, Copy, Debug, PartialEq, Eq)]
pub struct CallRequest {
    pub number: Word,
    pub fd: Word,
    pub at: Word,
    pub count: Word,
}
