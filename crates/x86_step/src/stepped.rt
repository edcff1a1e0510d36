// How a step goes on.

/// What one step of an instruction comes to: the next instruction; a system call, which whoever makes the step has to make; or an end.
#[derive(Clone, Copy, Debug, PartialEq, Eq)]
pub enum Stepped {
    Next,
    Call,
    MemoryFault,
    DivideFault,
    Unspecified,
}
