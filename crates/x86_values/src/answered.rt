// What an operation comes to.

use crate::word::{Flags, Word};

/// A value, and the flags after it.
#[derive(Clone, Copy, Debug, PartialEq, Eq)]
pub struct Answered {
    pub value: Word,
    pub flags: Flags,
}
