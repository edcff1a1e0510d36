// What is still to be looked at.

// An instruction that is found, and a leader, by their addresses.
#[derive(Clone, Copy, Debug, Drop)]
pub(crate) enum Work {
    Instruction(u32),
    Leader(u32),
}
