// An instruction with other registers in its first three fields.
ghost use Rattle.std.specs.Prelude.{◌≡◌};
ghost use Rattle.x86_types.specs.Registers.{renamed, renamed_address, renamed_option, renamed_rm, renamed_src};
ghost use Rattle.name_cells.specs.Renaming.{by_registers, register_of};

use x86_types::{Address, Instr, Reg, Rm, Src, Width};

/// The registers of the fields that hold EAX, ECX and EDX; others stay.
#[derive(Clone, Copy)]
pub(crate) struct FieldRegisters {
    pub(crate) first: Reg,
    pub(crate) second: Reg,
    pub(crate) third: Reg,
}

fn register(regs: FieldRegisters, reg: Reg) -> Reg
    ensures { result ≡ register_of regs reg }
{
    match reg {
        Reg::Eax => regs.first,
        Reg::Ecx => regs.second,
        Reg::Edx => regs.third,
        Reg::Ebx | Reg::Esp | Reg::Ebp | Reg::Esi | Reg::Edi => reg,
    }
}

fn option(regs: FieldRegisters, reg: Option<Reg>) -> Option<Reg>
    ensures { result ≡ renamed_option (register_of regs) reg }
{
    match reg {
        None => None,
        Some(reg) => Some(register(regs, reg)),
    }
}

fn address(regs: FieldRegisters, at: Address) -> Address
    ensures { result ≡ renamed_address (by_registers regs) at }
{
    Address {
        base: option(regs, at.base),
        index: option(regs, at.index),
        scale: at.scale,
        disp: at.disp,
    }
}

fn rm(regs: FieldRegisters, width: Width, rm: Rm) -> Rm
    ensures { result ≡ renamed_rm (by_registers regs) width rm }
{
    match rm {
        Rm::Reg(reg) => Rm::Reg(register(regs, reg)),
        Rm::Mem(at) => Rm::Mem(address(regs, at)),
    }
}

fn src(regs: FieldRegisters, width: Width, src: Src) -> Src
    ensures { result ≡ renamed_src (by_registers regs) width src }
{
    match src {
        Src::Reg(reg) => Src::Reg(register(regs, reg)),
        Src::Mem(at) => Src::Mem(address(regs, at)),
        Src::Imm(number) => Src::Imm(number),
    }
}

/// The instruction with these registers in its fields.
pub(crate) fn renamed(regs: FieldRegisters, instr: Instr) -> Instr
    ensures { result ≡ renamed (by_registers regs) instr }
{
    match instr {
        Instr::Alu {
            op,
            width,
            to,
            from,
        } => Instr::Alu {
            op,
            width,
            to: rm(regs, width, to),
            from: src(regs, width, from),
        },
        Instr::Test { width, left, right } => Instr::Test {
            width,
            left: rm(regs, width, left),
            right: src(regs, width, right),
        },
        Instr::Mov { width, to, from } => Instr::Mov {
            width,
            to: rm(regs, width, to),
            from: src(regs, width, from),
        },
        Instr::Lea { width, to, at } => Instr::Lea {
            width,
            to: register(regs, to),
            at: address(regs, at),
        },
        Instr::Inc { width, to } => Instr::Inc {
            width,
            to: rm(regs, width, to),
        },
        Instr::Dec { width, to } => Instr::Dec {
            width,
            to: rm(regs, width, to),
        },
        Instr::Not { width, to } => Instr::Not {
            width,
            to: rm(regs, width, to),
        },
        Instr::Neg { width, to } => Instr::Neg {
            width,
            to: rm(regs, width, to),
        },
        Instr::Mul { width, from } => Instr::Mul {
            width,
            from: rm(regs, width, from),
        },
        Instr::ImulWide { width, from } => Instr::ImulWide {
            width,
            from: rm(regs, width, from),
        },
        Instr::Div { width, from } => Instr::Div {
            width,
            from: rm(regs, width, from),
        },
        Instr::Idiv { width, from } => Instr::Idiv {
            width,
            from: rm(regs, width, from),
        },
        Instr::Imul { width, to, from } => Instr::Imul {
            width,
            to: register(regs, to),
            from: rm(regs, width, from),
        },
        Instr::ImulBy {
            width,
            to,
            from,
            by,
        } => Instr::ImulBy {
            width,
            to: register(regs, to),
            from: rm(regs, width, from),
            by,
        },
        Instr::Shift {
            op,
            width,
            to,
            count,
        } => Instr::Shift {
            op,
            width,
            to: rm(regs, width, to),
            count,
        },
        Instr::Shld { to, from, count } => Instr::Shld {
            to: rm(regs, Width::Four, to),
            from: register(regs, from),
            count,
        },
        Instr::Shrd { to, from, count } => Instr::Shrd {
            to: rm(regs, Width::Four, to),
            from: register(regs, from),
            count,
        },
        Instr::Push { from } => Instr::Push {
            from: src(regs, Width::Four, from),
        },
        Instr::Pop { to } => Instr::Pop {
            to: rm(regs, Width::Four, to),
        },
        Instr::Xchg { width, left, right } => Instr::Xchg {
            width,
            left: rm(regs, width, left),
            right: register(regs, right),
        },
        Instr::Movzx {
            wide,
            width,
            to,
            from,
        } => Instr::Movzx {
            wide,
            width,
            to: register(regs, to),
            from: rm(regs, width, from),
        },
        Instr::Movsx {
            wide,
            width,
            to,
            from,
        } => Instr::Movsx {
            wide,
            width,
            to: register(regs, to),
            from: rm(regs, width, from),
        },
        Instr::Cmov {
            cond,
            width,
            to,
            from,
        } => Instr::Cmov {
            cond,
            width,
            to: register(regs, to),
            from: rm(regs, width, from),
        },
        Instr::Setcc { cond, to } => Instr::Setcc {
            cond,
            to: rm(regs, Width::One, to),
        },
        Instr::Bsf { width, to, from } => Instr::Bsf {
            width,
            to: register(regs, to),
            from: rm(regs, width, from),
        },
        Instr::Bsr { width, to, from } => Instr::Bsr {
            width,
            to: register(regs, to),
            from: rm(regs, width, from),
        },
        Instr::Bswap { to } => Instr::Bswap {
            to: register(regs, to),
        },
        Instr::JmpTo { to } => Instr::JmpTo {
            to: rm(regs, Width::Four, to),
        },
        Instr::CallTo { to } => Instr::CallTo {
            to: rm(regs, Width::Four, to),
        },
        Instr::Extend { .. }
        | Instr::Spread { .. }
        | Instr::Movs { .. }
        | Instr::Stos { .. }
        | Instr::Jmp { .. }
        | Instr::Jcc { .. }
        | Instr::Call { .. }
        | Instr::Ret { .. }
        | Instr::Leave
        | Instr::Int80
        | Instr::Cld
        | Instr::Nop => instr,
    }
}
