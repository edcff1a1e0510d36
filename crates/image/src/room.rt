// Where the pages of an image may lie.

/// Where a file's pages may lie, and how many it may have.
#[derive(Clone, Copy, Debug, PartialEq, Eq)]
pub enum Room {
    /// The room of files that are rewritten: up to 0x50000000, with 4 MiB of code and 64 MiB in all.
    Source,
    /// The wide room, of files that are run: up to 0x7C000000, with 320 MiB of code and 512 MiB in all.
    Any,
}
