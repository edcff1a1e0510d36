// Instructions in few words, for the rows of the tests.
use x86_types::{Address, AluOp, Cond, Count, Instr, Reg, Rm, ShiftOp, Src, Width};

pub const EAX: Rm = Rm::Reg(Reg::Eax);

pub const ECX: Rm = Rm::Reg(Reg::Ecx);

pub const EBX: Rm = Rm::Reg(Reg::Ebx);

pub const ESP: Rm = Rm::Reg(Reg::Esp);

pub const EBP: Rm = Rm::Reg(Reg::Ebp);

pub const ESI: Rm = Rm::Reg(Reg::Esi);

pub const EDI: Rm = Rm::Reg(Reg::Edi);

pub const EDX: Rm = Rm::Reg(Reg::Edx);

fn at(base: Option<Reg>, index: Option<Reg>, scale: u8, disp: u32) -> Address {
    Address {
        base,
        index,
        scale,
        disp,
    }
}

pub fn alone(disp: u32) -> Address {
    at(None, None, 1, disp)
}

pub fn base(base: Reg, disp: u32) -> Address {
    at(Some(base), None, 1, disp)
}

pub fn scaled(index: Reg, scale: u8, disp: u32) -> Address {
    at(None, Some(index), scale, disp)
}

pub fn indexed(base: Reg, index: Reg, scale: u8, disp: u32) -> Address {
    at(Some(base), Some(index), scale, disp)
}

pub fn alu(op: AluOp, width: Width, to: Rm, from: Src) -> Instr {
    Instr::Alu {
        op,
        width,
        to,
        from,
    }
}

pub fn test(width: Width, left: Rm, right: Src) -> Instr {
    Instr::Test { width, left, right }
}

pub fn mov(width: Width, to: Rm, from: Src) -> Instr {
    Instr::Mov { width, to, from }
}

pub fn lea(width: Width, to: Reg, at: Address) -> Instr {
    Instr::Lea { width, to, at }
}

pub fn inc(width: Width, to: Rm) -> Instr {
    Instr::Inc { width, to }
}

pub fn dec(width: Width, to: Rm) -> Instr {
    Instr::Dec { width, to }
}

pub fn not(width: Width, to: Rm) -> Instr {
    Instr::Not { width, to }
}

pub fn neg(width: Width, to: Rm) -> Instr {
    Instr::Neg { width, to }
}

pub fn mul(width: Width, from: Rm) -> Instr {
    Instr::Mul { width, from }
}

pub fn imul_wide(width: Width, from: Rm) -> Instr {
    Instr::ImulWide { width, from }
}

pub fn div(width: Width, from: Rm) -> Instr {
    Instr::Div { width, from }
}

pub fn idiv(width: Width, from: Rm) -> Instr {
    Instr::Idiv { width, from }
}

pub fn imul(width: Width, to: Reg, from: Rm) -> Instr {
    Instr::Imul { width, to, from }
}

pub fn imul_by(width: Width, to: Reg, from: Rm, by: u32) -> Instr {
    Instr::ImulBy {
        width,
        to,
        from,
        by,
    }
}

pub fn movzx(wide: Width, width: Width, to: Reg, from: Rm) -> Instr {
    Instr::Movzx {
        wide,
        width,
        to,
        from,
    }
}

pub fn movsx(wide: Width, width: Width, to: Reg, from: Rm) -> Instr {
    Instr::Movsx {
        wide,
        width,
        to,
        from,
    }
}

pub fn cmov(cond: Cond, width: Width, to: Reg, from: Rm) -> Instr {
    Instr::Cmov {
        cond,
        width,
        to,
        from,
    }
}

pub fn setcc(cond: Cond, to: Rm) -> Instr {
    Instr::Setcc { cond, to }
}

pub fn bsf(width: Width, to: Reg, from: Rm) -> Instr {
    Instr::Bsf { width, to, from }
}

pub fn bsr(width: Width, to: Reg, from: Rm) -> Instr {
    Instr::Bsr { width, to, from }
}

pub fn bswap(to: Reg) -> Instr {
    Instr::Bswap { to }
}

pub fn shift(op: ShiftOp, width: Width, to: Rm, count: Count) -> Instr {
    Instr::Shift {
        op,
        width,
        to,
        count,
    }
}

pub fn shld(to: Rm, from: Reg, count: Count) -> Instr {
    Instr::Shld { to, from, count }
}

pub fn shrd(to: Rm, from: Reg, count: Count) -> Instr {
    Instr::Shrd { to, from, count }
}

pub fn push(from: Src) -> Instr {
    Instr::Push { from }
}

pub fn pop(to: Rm) -> Instr {
    Instr::Pop { to }
}

pub fn xchg(width: Width, left: Rm, right: Reg) -> Instr {
    Instr::Xchg { width, left, right }
}

pub fn extend(width: Width) -> Instr {
    Instr::Extend { width }
}

pub fn spread(width: Width) -> Instr {
    Instr::Spread { width }
}

pub fn movs(width: Width, repeat: bool) -> Instr {
    Instr::Movs { width, repeat }
}

pub fn stos(width: Width, repeat: bool) -> Instr {
    Instr::Stos { width, repeat }
}

pub fn jmp(by: u32) -> Instr {
    Instr::Jmp { by }
}

pub fn jcc(cond: Cond, by: u32) -> Instr {
    Instr::Jcc { cond, by }
}

pub fn jmp_to(to: Rm) -> Instr {
    Instr::JmpTo { to }
}

pub fn call_to(to: Rm) -> Instr {
    Instr::CallTo { to }
}

pub fn call(by: u32) -> Instr {
    Instr::Call { by }
}

pub fn ret(drop: u16) -> Instr {
    Instr::Ret { drop }
}
