ghost use Rattle.std.specs.Prelude.{◌≡◌, ◌<◌, ◌^◌, Some};
ghost use Rattle.x86_grammar.specs.Attributes.{imm_size};
ghost use Rattle.x86_grammar.specs.Meaning as spec;

use x86_grammar::{Row, signed, width_of};
use x86_types::{Address, AluOp, Cond, Count, Instr, Reg, Rm, ShiftOp, Src, Width, alu_at, reg_at};

fn src_of(rm: Rm) -> Src
    ensures { result ≡ spec.src_of rm }
{
    match rm {
        Rm::Reg(reg) => Src::Reg(reg),
        Rm::Mem(at) => Src::Mem(at),
    }
}

fn lea(width: Width, to: Reg, rm: Rm) -> Option<Instr>
    ensures { result ≡ spec.lea width to rm }
{
    match rm {
        Rm::Reg(_) => None,
        Rm::Mem(at) => Some(Instr::Lea { width, to, at }),
    }
}

fn number_alone(disp: u32) -> Address
    ensures { result ≡ spec.number_alone disp }
{
    Address {
        base: None,
        index: None,
        scale: 1,
        disp,
    }
}

fn alu(op: AluOp, width: Width, to: Rm, from: Src) -> Option<Instr>
    ensures { result ≡ Some (Instr.Alu op width to from) }
{
    Some(Instr::Alu {
        op,
        width,
        to,
        from,
    })
}

fn test(width: Width, left: Rm, right: Src) -> Option<Instr>
    ensures { result ≡ Some (Instr.Test width left right) }
{
    Some(Instr::Test { width, left, right })
}

fn mov(width: Width, to: Rm, from: Src) -> Option<Instr>
    ensures { result ≡ Some (Instr.Mov width to from) }
{
    Some(Instr::Mov { width, to, from })
}

fn imul_by(width: Width, to: Reg, from: Rm, by: u32) -> Option<Instr>
    ensures { result ≡ Some (Instr.ImulBy width to from by) }
{
    Some(Instr::ImulBy {
        width,
        to,
        from,
        by,
    })
}

fn shift(op: ShiftOp, width: Width, to: Rm, count: Count) -> Option<Instr>
    ensures { result ≡ Some (Instr.Shift op width to count) }
{
    Some(Instr::Shift {
        op,
        width,
        to,
        count,
    })
}

fn movzx(wide: Width, width: Width, to: Reg, from: Rm) -> Option<Instr>
    ensures { result ≡ Some (Instr.Movzx wide width to from) }
{
    Some(Instr::Movzx {
        wide,
        width,
        to,
        from,
    })
}

fn movsx(wide: Width, width: Width, to: Reg, from: Rm) -> Option<Instr>
    ensures { result ≡ Some (Instr.Movsx wide width to from) }
{
    Some(Instr::Movsx {
        wide,
        width,
        to,
        from,
    })
}

fn cmov(cond: Cond, width: Width, to: Reg, from: Rm) -> Option<Instr>
    ensures { result ≡ Some (Instr.Cmov cond width to from) }
{
    Some(Instr::Cmov {
        cond,
        width,
        to,
        from,
    })
}

/// What the parts of a spelling mean: the row, whether 66 makes width Two, whether F3 stands, ModRM's
/// reg field, the operand, and the immediate. None where they mean nothing.
pub(crate) fn build(
    row: Row,
    operand_size: bool,
    rep: bool,
    reg_field: u8,
    rm: Rm,
    imm: u32,
) -> Option<Instr>
    requires fits { imm < 256 ^ imm_size row operand_size }
    ensures { result ≡ spec.build row operand_size rep reg_field rm imm }
{
    let wide = width_of(true, operand_size);
    let reg = reg_at(reg_field);
    match row {
        Row::AluToRm(op, w) => alu(op, width_of(w, operand_size), rm, Src::Reg(reg)),
        Row::AluToReg(op, w) => alu(op, width_of(w, operand_size), Rm::Reg(reg), src_of(rm)),
        Row::AluAcc(op, w) => alu(
            op,
            width_of(w, operand_size),
            Rm::Reg(Reg::Eax),
            Src::Imm(imm),
        ),
        Row::AluImm(w) => alu(
            alu_at(reg_field),
            width_of(w, operand_size),
            rm,
            Src::Imm(imm),
        ),
        Row::AluByte => alu(
            alu_at(reg_field),
            wide,
            rm,
            Src::Imm(signed(wide, imm as u8)),
        ),
        Row::TestRm(w) => test(width_of(w, operand_size), rm, Src::Reg(reg)),
        Row::TestAcc(w) => test(width_of(w, operand_size), Rm::Reg(Reg::Eax), Src::Imm(imm)),
        Row::TestImm(w) => test(width_of(w, operand_size), rm, Src::Imm(imm)),
        Row::MovToRm(w) => mov(width_of(w, operand_size), rm, Src::Reg(reg)),
        Row::MovToReg(w) => mov(width_of(w, operand_size), Rm::Reg(reg), src_of(rm)),
        Row::MovReg(to, w) => mov(width_of(w, operand_size), Rm::Reg(to), Src::Imm(imm)),
        Row::MovImm(w) => mov(width_of(w, operand_size), rm, Src::Imm(imm)),
        Row::MovLoad(w) => mov(
            width_of(w, operand_size),
            Rm::Reg(Reg::Eax),
            Src::Mem(number_alone(imm)),
        ),
        Row::MovStore(w) => mov(
            width_of(w, operand_size),
            Rm::Mem(number_alone(imm)),
            Src::Reg(Reg::Eax),
        ),
        Row::Lea => lea(wide, reg, rm),
        Row::IncReg(to) => Some(Instr::Inc {
            width: wide,
            to: Rm::Reg(to),
        }),
        Row::DecReg(to) => Some(Instr::Dec {
            width: wide,
            to: Rm::Reg(to),
        }),
        Row::Inc(w) => Some(Instr::Inc {
            width: width_of(w, operand_size),
            to: rm,
        }),
        Row::Dec(w) => Some(Instr::Dec {
            width: width_of(w, operand_size),
            to: rm,
        }),
        Row::Not(w) => Some(Instr::Not {
            width: width_of(w, operand_size),
            to: rm,
        }),
        Row::Neg(w) => Some(Instr::Neg {
            width: width_of(w, operand_size),
            to: rm,
        }),
        Row::Mul(w) => Some(Instr::Mul {
            width: width_of(w, operand_size),
            from: rm,
        }),
        Row::ImulWide(w) => Some(Instr::ImulWide {
            width: width_of(w, operand_size),
            from: rm,
        }),
        Row::Div(w) => Some(Instr::Div {
            width: width_of(w, operand_size),
            from: rm,
        }),
        Row::Idiv(w) => Some(Instr::Idiv {
            width: width_of(w, operand_size),
            from: rm,
        }),
        Row::Imul => Some(Instr::Imul {
            width: wide,
            to: reg,
            from: rm,
        }),
        Row::ImulWord => imul_by(wide, reg, rm, imm),
        Row::ImulByte => imul_by(wide, reg, rm, signed(wide, imm as u8)),
        Row::ShiftImm(op, w) => shift(op, width_of(w, operand_size), rm, Count::Imm(imm as u8)),
        Row::ShiftOne(op, w) => shift(op, width_of(w, operand_size), rm, Count::Imm(1)),
        Row::ShiftCl(op, w) => shift(op, width_of(w, operand_size), rm, Count::Cl),
        Row::ShldImm => Some(Instr::Shld {
            to: rm,
            from: reg,
            count: Count::Imm(imm as u8),
        }),
        Row::ShldCl => Some(Instr::Shld {
            to: rm,
            from: reg,
            count: Count::Cl,
        }),
        Row::ShrdImm => Some(Instr::Shrd {
            to: rm,
            from: reg,
            count: Count::Imm(imm as u8),
        }),
        Row::ShrdCl => Some(Instr::Shrd {
            to: rm,
            from: reg,
            count: Count::Cl,
        }),
        Row::PushReg(from) => Some(Instr::Push {
            from: Src::Reg(from),
        }),
        Row::PushWord => Some(Instr::Push {
            from: Src::Imm(imm),
        }),
        Row::PushByte => Some(Instr::Push {
            from: Src::Imm(signed(Width::Four, imm as u8)),
        }),
        Row::Push => Some(Instr::Push { from: src_of(rm) }),
        Row::PopReg(to) => Some(Instr::Pop { to: Rm::Reg(to) }),
        Row::Pop => Some(Instr::Pop { to: rm }),
        Row::Xchg(w) => Some(Instr::Xchg {
            width: width_of(w, operand_size),
            left: rm,
            right: reg,
        }),
        Row::XchgAcc(right) => Some(Instr::Xchg {
            width: wide,
            left: Rm::Reg(Reg::Eax),
            right,
        }),
        Row::MovzxByte => movzx(wide, Width::One, reg, rm),
        Row::MovzxWord => movzx(Width::Four, Width::Two, reg, rm),
        Row::MovsxByte => movsx(wide, Width::One, reg, rm),
        Row::MovsxWord => movsx(Width::Four, Width::Two, reg, rm),
        Row::Cmov(cond) => cmov(cond, wide, reg, rm),
        Row::Setcc(cond) => Some(Instr::Setcc { cond, to: rm }),
        Row::Extend => Some(Instr::Extend { width: wide }),
        Row::Spread => Some(Instr::Spread { width: wide }),
        Row::Bsf => Some(Instr::Bsf {
            width: wide,
            to: reg,
            from: rm,
        }),
        Row::Bsr => Some(Instr::Bsr {
            width: wide,
            to: reg,
            from: rm,
        }),
        Row::BswapReg(to) => Some(Instr::Bswap { to }),
        Row::Movs(w) => Some(Instr::Movs {
            width: width_of(w, operand_size),
            repeat: rep,
        }),
        Row::Stos(w) => Some(Instr::Stos {
            width: width_of(w, operand_size),
            repeat: rep,
        }),
        Row::JmpShort => Some(Instr::Jmp {
            by: signed(Width::Four, imm as u8),
        }),
        Row::JmpNear => Some(Instr::Jmp { by: imm }),
        Row::JmpTo => Some(Instr::JmpTo { to: rm }),
        Row::CallTo => Some(Instr::CallTo { to: rm }),
        Row::JccShort(cond) => Some(Instr::Jcc {
            cond,
            by: signed(Width::Four, imm as u8),
        }),
        Row::JccNear(cond) => Some(Instr::Jcc { cond, by: imm }),
        Row::CallNear => Some(Instr::Call { by: imm }),
        Row::Ret => Some(Instr::Ret { drop: 0 }),
        Row::RetDrop => Some(Instr::Ret { drop: imm as u16 }),
        Row::Leave => Some(Instr::Leave),
        Row::Int80 => {
            if imm == 0x80 {
                Some(Instr::Int80)
            } else {
                None
            }
        }
        Row::Cld => Some(Instr::Cld),
        Row::Nop => Some(Instr::Nop),
        Row::NopLong => Some(Instr::Nop),
        Row::NopEnd => { if imm == 0xFB { Some(Instr::Nop) } else { None } }
    }
}
