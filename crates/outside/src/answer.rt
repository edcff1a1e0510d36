// What the outside answers to a read or a write.

/// What the outside answers to one call that reads or writes.
#[derive(Clone, Copy, Debug, PartialEq, Eq)]
pub enum Answer {
    /// At most that many bytes are given or taken.
    Take(u32),
    /// The call fails with this error number, from 1 to 4,095 (Linux, `errno`).
    Fail(u32),
}
