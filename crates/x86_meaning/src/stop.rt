// How a step may end a run.

/// The ends that the effect of an instruction or an access of memory may come to, in place of a value: a fault of memory, a
/// fault of a division (Intel SDM volume 2, "DIV", #DE), or the use of a byte or flag that is unspecified.
#[derive(Clone, Copy, Debug, PartialEq, Eq)]
pub enum Stop {
    MemoryFault,
    DivideFault,
    Unspecified,
}
