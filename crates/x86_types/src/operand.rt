/// The eight general registers, in the order of their numbers. At width One the first four are
/// the lowest bytes of Eax, Ecx, Edx and Ebx, and the last four are their second bytes (AH, CH,
/// DH and BH). Intel SDM volume 2, table 3-1.
#[derive(Clone, Copy, Debug, PartialEq, Eq)]
pub enum Reg {
    Eax,
    Ecx,
    Edx,
    Ebx,
    Esp,
    Ebp,
    Esi,
    Edi,
}

/// One byte of a general register: byte 0 is the lowest, byte 1 the second. Intel SDM volume 2,
/// table 3-1.
#[derive(Clone, Copy, Debug, PartialEq, Eq)]
pub struct ByteRegister {
    pub reg: Reg,
    pub byte: u8,
}

/// A place in memory: the sum of base, index times scale, and displacement, modulo 2^32. The
/// scale is 1, 2, 4 or 8, and 1 where there is no index; the index is never Esp. Intel SDM volume
/// 2, section 2.1.5.
#[derive(Clone, Copy, Debug, PartialEq, Eq)]
pub struct Address {
    pub base: Option<Reg>,
    pub index: Option<Reg>,
    pub scale: u8,
    pub disp: u32,
}

/// What the rm field of ModRM names: a register or a place in memory. Intel SDM volume 2, table
/// 2-2.
#[derive(Clone, Copy, Debug, PartialEq, Eq)]
pub enum Rm {
    Reg(Reg),
    Mem(Address),
}

/// What an instruction reads: a register, a place in memory or a constant. A constant at width
/// One is below 256, at width Two below 65,536. Intel SDM volume 2, section 3.1.1.3.
#[derive(Clone, Copy, Debug, PartialEq, Eq)]
pub enum Src {
    Reg(Reg),
    Mem(Address),
    Imm(u32),
}
