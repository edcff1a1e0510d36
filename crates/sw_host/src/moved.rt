// A list of writes that contracts see as a list of file descriptors and bytes.
ghost use Rattle.std.specs.Prelude.{◌≡◌, ◌==◌, [], ◌∷◌, ◌++◌, map, length, OnOk, OnErr};
ghost use Rattle.sw_host.specs.Moved.{as_pair};

use byte_lists::ByteList;
use std::alloc::AllocError;
use std::marker::Model;

/// A write that was made: the file descriptor and the bytes that were moved to it.
#[derive(Debug, Drop)]
pub struct Moved {
    pub fd: u32,
    pub bytes: ByteList,
}

/// A list of writes.
#[derive(Debug, Drop)]
pub struct MovedList {
    writes: Vec<Moved>,
}

impl Model for MovedList {
    ghost use Rattle.std.specs.Prelude.{List, ℕ, map};
    ghost use Rattle.sw_host.specs.Moved.{as_pair};

    ghost Value = { List (ℕ × List ℕ) };

    ghost view = { λ l. map as_pair l.writes.items };
}

impl MovedList {
    // The list without writes.
    pub(crate) fn new(writes: Vec<Moved>) -> MovedList
        ensures { result ≡ map as_pair writes.items }
    {
        MovedList { writes }
    }

    /// The writes, the first that was made first.
    pub fn as_slice(&self) -> &[Moved]
        ensures { map as_pair result.now ≡ self.now }
    {
        self.writes.as_slice()
    }

    /// How many writes there are.
    pub fn len(&self) -> usize
        ensures { result ≡ length self.now }
    {
        self.writes.len()
    }

    /// There are no writes.
    pub fn is_empty(&self) -> bool
        ensures { result ≡ (length self.now == 0) }
    {
        self.writes.is_empty()
    }

    // One more write, after the others.
    pub(crate) fn push(&mut self, fd: u32, bytes: ByteList) -> Result<(), AllocError>
        ensures ok { OnOk result (self.new ≡ self.old ++ (fd, bytes) ∷ []) }
        ensures err { OnErr result (self.new ≡ self.old) }
    {
        self.writes.push(Moved { fd, bytes })?;
        Ok(())
    }
}
