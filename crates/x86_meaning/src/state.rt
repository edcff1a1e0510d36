// The state of the processor.

use x86_values::{Flags, Word};

/// The eight general registers by number, the flags, and the address of the next instruction.
#[derive(Clone, Copy, Debug)]
pub struct Cpu {
    pub regs: [Word; 8],
    pub flags: Flags,
    pub eip: u32,
}
