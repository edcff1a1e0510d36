// An instruction as text: its form's name, and its fields in the order of the type.
use crate::operand_text::{AddressText, CountText, RegText, RmText, SrcText};
use std::fmt::{self, Display};
use x86_types::{Count, Instr, Reg, Rm, Width};

/// The text of an instruction: its form's name, and its fields as `name=value` in the order of the type. An address is
/// `[ebx+esi*4+0x00000010]`, with the parts that it has; a register has its 32-bit name at every width; a width is its number of bytes;
/// numbers have the digits of their whole type.
#[derive(Clone, Copy)]
pub struct InstrText(pub Instr);

impl Display for InstrText {
    fn fmt<W: fmt::Write>(&self, f: &mut fmt::Formatter<W>) -> fmt::Result {
        match self.0 {
            Instr::Alu { .. }
            | Instr::Test { .. }
            | Instr::Inc { .. }
            | Instr::Dec { .. }
            | Instr::Not { .. }
            | Instr::Neg { .. }
            | Instr::Mul { .. }
            | Instr::ImulWide { .. }
            | Instr::Div { .. }
            | Instr::Idiv { .. }
            | Instr::Imul { .. }
            | Instr::ImulBy { .. }
            | Instr::Shift { .. }
            | Instr::Shld { .. }
            | Instr::Shrd { .. }
            | Instr::Bsf { .. }
            | Instr::Bsr { .. } => arithmetic(f, self.0),
            Instr::Mov { .. }
            | Instr::Lea { .. }
            | Instr::Push { .. }
            | Instr::Pop { .. }
            | Instr::Xchg { .. }
            | Instr::Movzx { .. }
            | Instr::Movsx { .. }
            | Instr::Cmov { .. }
            | Instr::Setcc { .. }
            | Instr::Extend { .. }
            | Instr::Spread { .. }
            | Instr::Bswap { .. }
            | Instr::Movs { .. }
            | Instr::Stos { .. } => moves(f, self.0),
            Instr::Jmp { .. }
            | Instr::JmpTo { .. }
            | Instr::CallTo { .. }
            | Instr::Jcc { .. }
            | Instr::Call { .. }
            | Instr::Ret { .. }
            | Instr::Leave
            | Instr::Int80
            | Instr::Cld
            | Instr::Nop => control(f, self.0),
        }
    }
}

/// A form of one operand of that width; `field` is its name.
fn of_operand<W: fmt::Write>(
    f: &mut fmt::Formatter<W>,
    name: &str,
    width: Width,
    field: &str,
    operand: Rm,
) -> fmt::Result {
    let width = width.size();
    let operand = RmText(operand);
    write!(f, "{name} width={width} {field}={operand}")
}

/// A form from an operand to a register.
fn to_register<W: fmt::Write>(
    f: &mut fmt::Formatter<W>,
    name: &str,
    width: Width,
    to: Reg,
    from: Rm,
) -> fmt::Result {
    let width = width.size();
    let to = RegText(to);
    let from = RmText(from);
    write!(f, "{name} width={width} to={to} from={from}")
}

/// A shift of two registers.
fn double_shift<W: fmt::Write>(
    f: &mut fmt::Formatter<W>,
    name: &str,
    to: Rm,
    from: Reg,
    count: Count,
) -> fmt::Result {
    let to = RmText(to);
    let from = RegText(from);
    let count = CountText(count);
    write!(f, "{name} to={to} from={from} count={count}")
}

/// The instructions that compute.
fn arithmetic<W: fmt::Write>(f: &mut fmt::Formatter<W>, instr: Instr) -> fmt::Result {
    match instr {
        Instr::Alu {
            op,
            width,
            to,
            from,
        } => {
            let (width, to, from) = (width.size(), RmText(to), SrcText(from));
            write!(f, "Alu op={op:?} width={width} to={to} from={from}")
        }
        Instr::Test { width, left, right } => {
            let (width, left, right) = (width.size(), RmText(left), SrcText(right));
            write!(f, "Test width={width} left={left} right={right}")
        }
        Instr::Inc { width, to } => of_operand(f, "Inc", width, "to", to),
        Instr::Dec { width, to } => of_operand(f, "Dec", width, "to", to),
        Instr::Not { width, to } => of_operand(f, "Not", width, "to", to),
        Instr::Neg { width, to } => of_operand(f, "Neg", width, "to", to),
        Instr::Mul { width, from } => of_operand(f, "Mul", width, "from", from),
        Instr::ImulWide { width, from } => of_operand(f, "ImulWide", width, "from", from),
        Instr::Div { width, from } => of_operand(f, "Div", width, "from", from),
        Instr::Idiv { width, from } => of_operand(f, "Idiv", width, "from", from),
        Instr::Imul { width, to, from } => to_register(f, "Imul", width, to, from),
        Instr::ImulBy {
            width,
            to,
            from,
            by,
        } => {
            to_register(f, "ImulBy", width, to, from)?;
            write!(f, " by=0x{by:08x}")
        }
        Instr::Shift {
            op,
            width,
            to,
            count,
        } => {
            let (width, to, count) = (width.size(), RmText(to), CountText(count));
            write!(f, "Shift op={op:?} width={width} to={to} count={count}")
        }
        Instr::Shld { to, from, count } => double_shift(f, "Shld", to, from, count),
        Instr::Shrd { to, from, count } => double_shift(f, "Shrd", to, from, count),
        Instr::Bsf { width, to, from } => to_register(f, "Bsf", width, to, from),
        Instr::Bsr { width, to, from } => to_register(f, "Bsr", width, to, from),
        _ => Ok(()),
    }
}

/// A move that widens.
fn widened<W: fmt::Write>(
    f: &mut fmt::Formatter<W>,
    name: &str,
    wide: Width,
    width: Width,
    to: Reg,
    from: Rm,
) -> fmt::Result {
    let wide = wide.size();
    let width = width.size();
    let to = RegText(to);
    let from = RmText(from);
    write!(f, "{name} wide={wide} width={width} to={to} from={from}")
}

/// A string instruction.
fn string<W: fmt::Write>(
    f: &mut fmt::Formatter<W>,
    name: &str,
    width: Width,
    repeat: bool,
) -> fmt::Result {
    let width = width.size();
    write!(f, "{name} width={width} repeat={repeat}")
}

/// The instructions that move, widen or swap.
fn moves<W: fmt::Write>(f: &mut fmt::Formatter<W>, instr: Instr) -> fmt::Result {
    match instr {
        Instr::Mov { width, to, from } => {
            let (width, to, from) = (width.size(), RmText(to), SrcText(from));
            write!(f, "Mov width={width} to={to} from={from}")
        }
        Instr::Lea { width, to, at } => {
            let (width, to, at) = (width.size(), RegText(to), AddressText(at));
            write!(f, "Lea width={width} to={to} at={at}")
        }
        Instr::Push { from } => {
            let from = SrcText(from);
            write!(f, "Push from={from}")
        }
        Instr::Pop { to } => alone(f, "Pop", to),
        Instr::Xchg { width, left, right } => {
            let (width, left, right) = (width.size(), RmText(left), RegText(right));
            write!(f, "Xchg width={width} left={left} right={right}")
        }
        Instr::Movzx {
            wide,
            width,
            to,
            from,
        } => widened(f, "Movzx", wide, width, to, from),
        Instr::Movsx {
            wide,
            width,
            to,
            from,
        } => widened(f, "Movsx", wide, width, to, from),
        Instr::Cmov {
            cond,
            width,
            to,
            from,
        } => {
            let (width, to, from) = (width.size(), RegText(to), RmText(from));
            write!(f, "Cmov cond={cond:?} width={width} to={to} from={from}")
        }
        Instr::Setcc { cond, to } => {
            let to = RmText(to);
            write!(f, "Setcc cond={cond:?} to={to}")
        }
        Instr::Extend { width } => write!(f, "Extend width={}", width.size()),
        Instr::Spread { width } => write!(f, "Spread width={}", width.size()),
        Instr::Bswap { to } => write!(f, "Bswap to={}", RegText(to)),
        Instr::Movs { width, repeat } => string(f, "Movs", width, repeat),
        Instr::Stos { width, repeat } => string(f, "Stos", width, repeat),
        _ => Ok(()),
    }
}

/// A form of one operand of four bytes.
fn alone<W: fmt::Write>(f: &mut fmt::Formatter<W>, name: &str, to: Rm) -> fmt::Result {
    let to = RmText(to);
    write!(f, "{name} to={to}")
}

/// The instructions that jump, call or return, and those without operands.
fn control<W: fmt::Write>(f: &mut fmt::Formatter<W>, instr: Instr) -> fmt::Result {
    match instr {
        Instr::Jmp { by } => write!(f, "Jmp by=0x{by:08x}"),
        Instr::JmpTo { to } => alone(f, "JmpTo", to),
        Instr::CallTo { to } => alone(f, "CallTo", to),
        Instr::Jcc { cond, by } => write!(f, "Jcc cond={cond:?} by=0x{by:08x}"),
        Instr::Call { by } => write!(f, "Call by=0x{by:08x}"),
        Instr::Ret { drop } => write!(f, "Ret drop=0x{drop:04x}"),
        Instr::Leave => f.write_str("Leave"),
        Instr::Int80 => f.write_str("Int80"),
        Instr::Cld => f.write_str("Cld"),
        Instr::Nop => f.write_str("Nop"),
        _ => Ok(()),
    }
}
