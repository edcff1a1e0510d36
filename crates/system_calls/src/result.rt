// The results of calls.
ghost use Rattle.std.specs.Prelude.{◌≡◌, ◌≤◌};
ghost use Rattle.memory.specs.SystemCall as spec;

/// The greatest number of bytes that one call moves.
pub(crate) const CAP: u32 = 65536;

/// Bad file descriptor (Linux, `errno`).
pub(crate) const EBADF: u32 = 9;

/// Bad address (Linux, `errno`).
pub(crate) const EFAULT: u32 = 14;

/// Minus an error number, as a word.
pub(crate) fn error(number: u32) -> u32
    requires { 1 ≤ number }
    ensures { result ≡ spec.error number }
{
    u32::MAX - (number - 1)
}
