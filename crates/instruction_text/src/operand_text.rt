// Operands as text: registers by their 32-bit names, numbers as hexadecimal digits of their whole width.
use std::fmt::{self, Display};
use x86_types::{Address, Count, Reg, Rm, Src};

#[derive(Clone, Copy)]
pub(crate) struct RegText(pub(crate) Reg);

impl Display for RegText {
    ghost use Rattle.std.specs.Prelude.{Some};
    ghost use Rattle.instruction_text.specs.Operands.{reg_text};

    ghost output = { λ t. Some (reg_text t.0) };

    fn fmt<W: fmt::Write>(&self, f: &mut fmt::Formatter<W>) -> fmt::Result {
        f.write_str(match self.0 {
            Reg::Eax => "eax",
            Reg::Ecx => "ecx",
            Reg::Edx => "edx",
            Reg::Ebx => "ebx",
            Reg::Esp => "esp",
            Reg::Ebp => "ebp",
            Reg::Esi => "esi",
            Reg::Edi => "edi",
        })
    }
}

#[derive(Clone, Copy)]
pub(crate) struct AddressText(pub(crate) Address);

impl Display for AddressText {
    ghost use Rattle.std.specs.Prelude.{Some};
    ghost use Rattle.instruction_text.specs.Operands.{address_text};

    ghost output = { λ t. Some (address_text t.0) };

    fn fmt<W: fmt::Write>(&self, f: &mut fmt::Formatter<W>) -> fmt::Result {
        let at = self.0;
        let disp = at.disp;
        match (at.base, at.index) {
            (None, None) => write!(f, "[0x{disp:08x}]"),
            (Some(base), None) => {
                let base = RegText(base);
                write!(f, "[{base}+0x{disp:08x}]")
            }
            (None, Some(index)) => {
                let index = RegText(index);
                let scale = at.scale;
                write!(f, "[{index}*{scale}+0x{disp:08x}]")
            }
            (Some(base), Some(index)) => {
                let base = RegText(base);
                let index = RegText(index);
                let scale = at.scale;
                write!(f, "[{base}+{index}*{scale}+0x{disp:08x}]")
            }
        }
    }
}

#[derive(Clone, Copy)]
pub(crate) struct RmText(pub(crate) Rm);

impl Display for RmText {
    ghost use Rattle.std.specs.Prelude.{Some};
    ghost use Rattle.instruction_text.specs.Operands.{rm_text};

    ghost output = { λ t. Some (rm_text t.0) };

    fn fmt<W: fmt::Write>(&self, f: &mut fmt::Formatter<W>) -> fmt::Result {
        match self.0 {
            Rm::Reg(reg) => {
                let reg = RegText(reg);
                write!(f, "{reg}")
            }
            Rm::Mem(at) => {
                let at = AddressText(at);
                write!(f, "{at}")
            }
        }
    }
}

#[derive(Clone, Copy)]
pub(crate) struct SrcText(pub(crate) Src);

impl Display for SrcText {
    ghost use Rattle.std.specs.Prelude.{Some};
    ghost use Rattle.instruction_text.specs.Operands.{src_text};

    ghost output = { λ t. Some (src_text t.0) };

    fn fmt<W: fmt::Write>(&self, f: &mut fmt::Formatter<W>) -> fmt::Result {
        match self.0 {
            Src::Reg(reg) => {
                let reg = RegText(reg);
                write!(f, "{reg}")
            }
            Src::Mem(at) => {
                let at = AddressText(at);
                write!(f, "{at}")
            }
            Src::Imm(value) => write!(f, "0x{value:08x}"),
        }
    }
}

#[derive(Clone, Copy)]
pub(crate) struct CountText(pub(crate) Count);

impl Display for CountText {
    ghost use Rattle.std.specs.Prelude.{Some};
    ghost use Rattle.instruction_text.specs.Operands.{count_text};

    ghost output = { λ t. Some (count_text t.0) };

    fn fmt<W: fmt::Write>(&self, f: &mut fmt::Formatter<W>) -> fmt::Result {
        match self.0 {
            Count::Imm(value) => write!(f, "0x{value:02x}"),
            Count::Cl => f.write_str("cl"),
        }
    }
}
