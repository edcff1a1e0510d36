// How a run ends.

/// How a run ends, within a number of steps. By a call: `Exited` with a status, or `OtherCall` with the number of a call that isn't taken. By a
/// fault: `MemoryFault`, `DivideFault`. `Outside`: at a place where no instruction stands. `Unspecified`: by the use of an unspecified byte
/// or flag. `Spent`: it hasn't ended.
#[derive(Clone, Copy, Debug, PartialEq, Eq)]
pub enum RunEnd {
    Exited(u8),
    MemoryFault,
    DivideFault,
    Outside,
    OtherCall(u32),
    Unspecified,
    Spent,
}
