ghost use Rattle.std.specs.Prelude.{◌≡◌};
ghost use Rattle.x86_types.specs.Registers as spec;
ghost use Rattle.x86_types.specs.Registers.{ByteRegisterIsNumber, RenamingLaws};

use crate::operand::{ByteRegister, Reg};

/// What a register names at width One: AL, CL, DL, BL, AH, CH, DH or BH.
pub fn byte_register(reg: Reg) -> ByteRegister
    ensures byte { result ≡ spec.byte_register reg }
{
    let (reg, byte) = match reg {
        Reg::Eax => (Reg::Eax, 0),
        Reg::Ecx => (Reg::Ecx, 0),
        Reg::Edx => (Reg::Edx, 0),
        Reg::Ebx => (Reg::Ebx, 0),
        Reg::Esp => (Reg::Eax, 1),
        Reg::Ebp => (Reg::Ecx, 1),
        Reg::Esi => (Reg::Edx, 1),
        Reg::Edi => (Reg::Ebx, 1),
    };
    ByteRegister { reg, byte }
}

/// The byte that a register names at width One is in its number; and what a change of the registers
/// in an instruction's fields keeps.
pub fn register_laws()
    ensures bytes { ByteRegisterIsNumber }
    ensures renaming { RenamingLaws }
{}
