// The trait of a host. It tells all of its meanings or none.
ghost use Rattle.std.specs.Prelude.{ℕ, ◌≤◌, length, Option, IfOk};
ghost use Rattle.sw_host.specs.Told.{Told, Tells, HasCause};
ghost use Rattle.sw_host.specs.Calls.{Loads, Stores, Takes, Puts, IsAnswerFor, Lines};

use outside::Answer;
use std::alloc::{AllocError, AllocFailed, Global};

/// Why a call of a host gave nothing: it failed, or memory is wanting.
#[derive(Clone, Copy, Debug, PartialEq, Eq)]
pub enum HostFault {
    Failed,
    Memory,
}

/// What the program may ask of the outside.
pub trait Host {
    /// What the host tells of itself, or nothing: `Told` has all seven meanings.
    ghost told: { Self → Option Told };

    /// A count that never falls, and rises where a load, a store or a line fails.
    ghost faults: { Self → ℕ };

    /// The first `limit` bytes of a file, or all where it is shorter.
    fn load(&mut self, alloc: Global, name: &str, limit: usize) -> Result<Vec<u8>, HostFault>
        ensures told { Tells (told self.old) (told self.new) (Loads name.now limit result) }
        ensures cause { HasCause (faults self.old) (faults self.new) result };

    /// Makes a file these bytes. After a fault that file holds anything; other files stay.
    fn store(&mut self, name: &str, bytes: &[u8]) -> Result<(), HostFault>
        ensures told { Tells (told self.old) (told self.new) (Stores name.now bytes.now result) }
        ensures cause { HasCause (faults self.old) (faults self.new) result };

    /// Moves input to the front of `buf`. The answer is how many bytes, or an error number of Linux (`errno`).
    fn take(&mut self, buf: &mut [u8]) -> Result<Answer, AllocError>
        ensures told { Tells (told self.old) (told self.new) (Takes buf.old buf.new result) }
        // Whatever the host tells.
        ensures answer { IfOk result (IsAnswerFor (length buf.old)) }
        ensures faults { faults self.old ≤ faults self.new };

    /// Moves the front of `bytes` to a file descriptor. The answer is how many bytes, or an error number.
    fn put(&mut self, fd: u32, bytes: &[u8]) -> Result<Answer, AllocError>
        ensures told { Tells (told self.old) (told self.new) (Puts fd bytes.now result) }
        ensures answer { IfOk result (IsAnswerFor (length bytes.now)) }
        ensures faults { faults self.old ≤ faults self.new };

    /// Says a line.
    fn line(&mut self, text: &str) -> Result<(), HostFault>
        ensures told { Tells (told self.old) (told self.new) (Lines text.now result) }
        ensures cause { HasCause (faults self.old) (faults self.new) result };
}

impl From<AllocError> for HostFault {
    ghost use Rattle.std.specs.Prelude.{◌≡◌};
    ghost use Rattle.sw_host.specs.declared.host.HostFault.TheVariants.{Memory};

    ghost from_gives = { λ _ e. e ≡ Memory };

    fn from(_: AllocError) -> Self {
        HostFault::Memory
    }
}

impl<T: Drop> From<AllocFailed<T>> for HostFault {
    ghost use Rattle.std.specs.Prelude.{◌≡◌};
    ghost use Rattle.sw_host.specs.declared.host.HostFault.TheVariants.{Memory};

    ghost from_gives = { λ _ e. e ≡ Memory };

    fn from(_: AllocFailed<T>) -> Self {
        HostFault::Memory
    }
}
