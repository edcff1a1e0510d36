ghost use Rattle.std.specs.Prelude.{◌≡◌};
ghost use Rattle.x86_grammar.specs.Fields as spec;
ghost use Rattle.x86_grammar.specs.Parts as parts;

use x86_types::{Address, Count, Instr, Reg, Rm, Src, Width};

fn number_fits(width: Width, value: u32) -> bool
    ensures { result ≡ spec.number_fits width value }
{
    match width {
        Width::One => value < 256,
        Width::Two => value < 65536,
        Width::Four => true,
    }
}

fn scale_fits(scale: u8) -> bool
    ensures { result ≡ spec.scale_fits scale }
{
    scale == 1 || scale == 2 || scale == 4 || scale == 8
}

fn index_fits(index: Option<Reg>, scale: u8) -> bool
    ensures { result ≡ spec.index_fits index scale }
{
    match index {
        None => scale == 1,
        Some(Reg::Eax) => scale_fits(scale),
        Some(Reg::Ecx) => scale_fits(scale),
        Some(Reg::Edx) => scale_fits(scale),
        Some(Reg::Ebx) => scale_fits(scale),
        Some(Reg::Esp) => false,
        Some(Reg::Ebp) => scale_fits(scale),
        Some(Reg::Esi) => scale_fits(scale),
        Some(Reg::Edi) => scale_fits(scale),
    }
}

fn address_fits(at: Address) -> bool
    ensures { result ≡ spec.address_fits at }
{
    index_fits(at.index, at.scale) && number_fits(Width::Four, at.disp)
}

fn rm_fits(rm: Rm) -> bool
    ensures { result ≡ spec.rm_fits rm }
{
    match rm {
        Rm::Reg(_) => true,
        Rm::Mem(at) => address_fits(at),
    }
}

fn count_fits(count: Count) -> bool
    ensures { result ≡ spec.count_fits count }
{
    match count {
        Count::Imm(value) => number_fits(Width::One, value as u32),
        Count::Cl => true,
    }
}

fn w_bit(width: Width) -> bool
    ensures { result ≡ parts.w_bit width }
{
    match width {
        Width::One => false,
        Width::Two => true,
        Width::Four => true,
    }
}

fn moves_fit(width: Width, to: Rm, from: Src) -> bool
    ensures { result ≡ spec.moves_fit width to from }
{
    match from {
        Src::Reg(_) => rm_fits(to),
        Src::Mem(at) => match to {
            Rm::Reg(_) => address_fits(at),
            Rm::Mem(_) => false,
        },
        Src::Imm(value) => rm_fits(to) && number_fits(width, value),
    }
}

fn test_fits(width: Width, left: Rm, right: Src) -> bool
    ensures { result ≡ spec.test_fits width left right }
{
    match right {
        Src::Reg(_) => rm_fits(left),
        Src::Mem(_) => false,
        Src::Imm(value) => rm_fits(left) && number_fits(width, value),
    }
}

fn push_fits(from: Src) -> bool
    ensures { result ≡ spec.push_fits from }
{
    match from {
        Src::Reg(_) => true,
        Src::Mem(at) => address_fits(at),
        Src::Imm(value) => number_fits(Width::Four, value),
    }
}

fn widens(wide: Width, width: Width) -> bool
    ensures { result ≡ spec.widens wide width }
{
    match (wide, width) {
        (Width::Two, Width::One) => true,
        (Width::Four, Width::One) => true,
        (Width::Four, Width::Two) => true,
        _ => false,
    }
}

/// Whether the instruction's fields are in the ranges of its spellings.
pub(crate) fn fields_fit(instr: Instr) -> bool
    ensures { result ≡ spec.fields_fit instr }
{
    match instr {
        Instr::Alu {
            op: _,
            width,
            to,
            from,
        } => moves_fit(width, to, from),
        Instr::Test { width, left, right } => test_fits(width, left, right),
        Instr::Mov { width, to, from } => moves_fit(width, to, from),
        Instr::Lea { width, to: _, at } => w_bit(width) && address_fits(at),
        Instr::Inc { width: _, to } => rm_fits(to),
        Instr::Dec { width: _, to } => rm_fits(to),
        Instr::Not { width: _, to } => rm_fits(to),
        Instr::Neg { width: _, to } => rm_fits(to),
        Instr::Mul { width: _, from } => rm_fits(from),
        Instr::ImulWide { width: _, from } => rm_fits(from),
        Instr::Div { width: _, from } => rm_fits(from),
        Instr::Idiv { width: _, from } => rm_fits(from),
        Instr::Imul { width, to: _, from } => w_bit(width) && rm_fits(from),
        Instr::ImulBy {
            width,
            to: _,
            from,
            by,
        } => { w_bit(width) && (rm_fits(from) && number_fits(width, by)) }
        Instr::Shift {
            op: _,
            width: _,
            to,
            count,
        } => rm_fits(to) && count_fits(count),
        Instr::Shld { to, from: _, count } => rm_fits(to) && count_fits(count),
        Instr::Shrd { to, from: _, count } => rm_fits(to) && count_fits(count),
        Instr::Push { from } => push_fits(from),
        Instr::Pop { to } => rm_fits(to),
        Instr::Xchg {
            width: _,
            left,
            right: _,
        } => rm_fits(left),
        Instr::Movzx {
            wide,
            width,
            to: _,
            from,
        } => widens(wide, width) && rm_fits(from),
        Instr::Movsx {
            wide,
            width,
            to: _,
            from,
        } => widens(wide, width) && rm_fits(from),
        Instr::Cmov {
            cond: _,
            width,
            to: _,
            from,
        } => w_bit(width) && rm_fits(from),
        Instr::Setcc { cond: _, to } => rm_fits(to),
        Instr::Extend { width } => w_bit(width),
        Instr::Spread { width } => w_bit(width),
        Instr::Bsf { width, to: _, from } => w_bit(width) && rm_fits(from),
        Instr::Bsr { width, to: _, from } => w_bit(width) && rm_fits(from),
        Instr::Bswap { to: _ } => true,
        Instr::Movs {
            width: _,
            repeat: _,
        } => true,
        Instr::Stos {
            width: _,
            repeat: _,
        } => true,
        Instr::Jmp { by } => number_fits(Width::Four, by),
        Instr::JmpTo { to } => rm_fits(to),
        Instr::CallTo { to } => rm_fits(to),
        Instr::Jcc { cond: _, by } => number_fits(Width::Four, by),
        Instr::Call { by } => number_fits(Width::Four, by),
        Instr::Ret { drop } => number_fits(Width::Two, drop as u32),
        Instr::Leave => true,
        Instr::Int80 => true,
        Instr::Cld => true,
        Instr::Nop => true,
    }
}
