// A byte of a register or of memory.

/// A byte that is known, or one of which nothing is claimed.
#[derive(Clone, Copy, Debug, PartialEq, Eq)]
pub enum Byte {
    Known(u8),
    Unspecified,
}
