// Which register holds a name while an instruction uses it.
ghost use Rattle.std.specs.Prelude.{◌≡◌, ◌&&◌, fold, is_some, None};
ghost use Rattle.name_cells.specs.Holders.{has_byte_field, holder, is_last, is_one, last_name, name_or, rm_has_byte, slot_register, src_has_byte};
ghost use Rattle.named_code.specs.Items.{slot_at};

use named_code::Slot;
use x86_types::{Instr, Reg, Rm, Src, Width, reg_number};

/// The last name in slots.
#[tactic(auto, using(std::proofs::lemmas::List::Sums::fold_more))]
pub(crate) fn last_name(slots: &[Slot]) -> Option<u32>
    ensures { result ≡ last_name slots.now }
{
    let mut last = None;
    for slot in slots {
        if let Slot::Name(name) = *slot {
            last = Some(name);
        }
    }
    last
}

fn is_last(last: Option<u32>, name: u32) -> bool
    ensures { result ≡ is_last last name }
{
    match last {
        None => false,
        Some(other) => other == name,
    }
}

fn is_one(width: Width) -> bool
    ensures { result ≡ is_one width }
{
    match width {
        Width::One => true,
        Width::Two | Width::Four => false,
    }
}

fn rm_has_byte(width: Width, rm: Rm) -> bool
    ensures { result ≡ rm_has_byte width rm }
{
    match rm {
        Rm::Reg(_) => is_one(width),
        Rm::Mem(_) => false,
    }
}

fn src_has_byte(width: Width, src: Src) -> bool
    ensures { result ≡ src_has_byte width src }
{
    match src {
        Src::Reg(_) => is_one(width),
        Src::Mem(_) | Src::Imm(_) => false,
    }
}

/// Whether an instruction has a field of one byte.
#[tactic(auto, unfolding(crate::specs::Holders::has_byte_field))]
pub(crate) fn has_byte_field(instr: Instr) -> bool
    ensures { result ≡ has_byte_field instr }
{
    match instr {
        Instr::Alu {
            width,
            to,
            from,
            ..
        } => rm_has_byte(width, to) || src_has_byte(width, from),
        Instr::Test { width, left, right } => rm_has_byte(width, left)
            || src_has_byte(width, right),
        Instr::Mov { width, to, from } => rm_has_byte(width, to) || src_has_byte(width, from),
        Instr::Lea { width, .. } => is_one(width),
        Instr::Inc { width, to }
        | Instr::Dec { width, to }
        | Instr::Not { width, to }
        | Instr::Neg { width, to }
        | Instr::Shift { width, to, .. } => rm_has_byte(width, to),
        Instr::Mul { width, from }
        | Instr::ImulWide { width, from }
        | Instr::Div { width, from }
        | Instr::Idiv { width, from } => rm_has_byte(width, from),
        Instr::Imul { width, from, .. }
        | Instr::ImulBy { width, from, .. }
        | Instr::Cmov { width, from, .. }
        | Instr::Bsf { width, from, .. }
        | Instr::Bsr { width, from, .. } => is_one(width) || rm_has_byte(width, from),
        Instr::Xchg { width, left, .. } => rm_has_byte(width, left) || is_one(width),
        Instr::Movzx {
            wide,
            width,
            from,
            ..
        }
        | Instr::Movsx {
            wide,
            width,
            from,
            ..
        } => is_one(wide) || rm_has_byte(width, from),
        Instr::Setcc { to, .. } => rm_has_byte(Width::One, to),
        Instr::Shld { .. }
        | Instr::Shrd { .. }
        | Instr::Push { .. }
        | Instr::Pop { .. }
        | Instr::Extend { .. }
        | Instr::Spread { .. }
        | Instr::Bswap { .. }
        | Instr::Movs { .. }
        | Instr::Stos { .. }
        | Instr::Jmp { .. }
        | Instr::JmpTo { .. }
        | Instr::CallTo { .. }
        | Instr::Jcc { .. }
        | Instr::Call { .. }
        | Instr::Ret { .. }
        | Instr::Leave
        | Instr::Int80
        | Instr::Cld
        | Instr::Nop => false,
    }
}

/// The register of a name, where there is a field of one byte or not and with the last name.
pub(crate) fn holder(byte: bool, last: Option<u32>, name: u32) -> Reg
    ensures { result ≡ holder byte last name }
{
    if !is_last(last, name) {
        Reg::Ebp
    } else if byte {
        Reg::Ebx
    } else {
        Reg::Esi
    }
}

/// The register of the slot with a register's number.
pub(crate) fn slot_register(byte: bool, last: Option<u32>, slots: &[Slot], reg: Reg) -> Reg
    ensures { result ≡ slot_register byte last (slot_at slots.now reg) }
{
    match slots.get(usize::from(reg_number(reg))) {
        None => reg,
        Some(Slot::Fixed(fixed)) => *fixed,
        Some(Slot::Name(name)) => holder(byte, last, *name),
    }
}
