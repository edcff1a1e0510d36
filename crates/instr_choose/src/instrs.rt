// Single instructions with their slots, each appended to a list. The first register field is EAX, the second ECX.
ghost use Rattle.std.specs.Prelude.{◌≡◌, [], ◌∷◌, ◌++◌, OnOk};
ghost use Rattle.instr_choose.specs.Blocks.{VarHasName, TermHasName};
ghost use Rattle.instr_choose.specs.Lists.{address_of, alu_by, based_on, at_word, copy, copy_byte, divide_by, extend, load_by, made, move_if, multiply_by, put, set_if, shift_by, source_of, store_by, with_source};

use crate::names::slot_of;
use flag_ir::Term;
use named_code::{Slot, SlotList, VInstr};
use smallvec::SmallVec;
use std::alloc::{AllocError, Global};
use x86_types::{Address, AluOp, Cond, Count, Instr, Reg, Rm, ShiftOp, Src, Width};

/// Appends an instruction with one slot.
pub(crate) fn push_one(
    alloc: Global,
    code: &mut Vec<VInstr>,
    instr: Instr,
    slot: Slot,
) -> Result<(), AllocError>
    ensures { OnOk result (code.new.items ≡ code.old.items ++ made instr (slot ∷ []) ∷ []) }
{
    let mut slots = SmallVec::new(alloc);
    slots.push(slot)?;
    let slots = SlotList::new(slots);
    code.push(VInstr { instr, slots })?;
    Ok(())
}

/// Appends an instruction with two slots.
pub(crate) fn push_two(
    alloc: Global,
    code: &mut Vec<VInstr>,
    instr: Instr,
    first: Slot,
    second: Slot,
) -> Result<(), AllocError>
    ensures { OnOk result (code.new.items ≡ code.old.items ++ made instr (first ∷ second ∷ []) ∷ []) }
{
    let mut slots = SmallVec::new(alloc);
    slots.push(first)?;
    slots.push(second)?;
    let slots = SlotList::new(slots);
    code.push(VInstr { instr, slots })?;
    Ok(())
}

/// Appends an instruction without slots.
pub(crate) fn push_bare(
    alloc: Global,
    code: &mut Vec<VInstr>,
    instr: Instr,
) -> Result<(), AllocError>
    ensures { OnOk result (code.new.items ≡ code.old.items ++ made instr [] ∷ []) }
{
    let slots = SlotList::new(SmallVec::new(alloc));
    code.push(VInstr { instr, slots })?;
    Ok(())
}

fn source_of(from: Term) -> Src
    ensures { result ≡ source_of from }
{
    match from {
        Term::Var(_) => Src::Reg(Reg::Ecx),
        Term::Word(n) => Src::Imm(n),
    }
}

// Appends an instruction whose first field is a slot and whose second operand is a term.
fn push_with(
    alloc: Global,
    code: &mut Vec<VInstr>,
    instr: Instr,
    to: Slot,
    from: Term,
) -> Result<(), AllocError>
    requires { TermHasName from }
    ensures { OnOk result (code.new.items ≡ code.old.items ++ made instr (with_source to from) ∷ []) }
{
    match from {
        Term::Var(var) => push_two(alloc, code, instr, to, slot_of(var)),
        Term::Word(_) => push_one(alloc, code, instr, to),
    }
}

pub(crate) fn put(
    alloc: Global,
    code: &mut Vec<VInstr>,
    to: Slot,
    from: Term,
) -> Result<(), AllocError>
    requires { TermHasName from }
    ensures { OnOk result (code.new.items ≡ code.old.items ++ put to from ∷ []) }
{
    let instr = Instr::Mov {
        width: Width::Four,
        to: Rm::Reg(Reg::Eax),
        from: source_of(from),
    };
    push_with(alloc, code, instr, to, from)
}

pub(crate) fn copy(
    alloc: Global,
    code: &mut Vec<VInstr>,
    to: Slot,
    from: Slot,
) -> Result<(), AllocError>
    ensures { OnOk result (code.new.items ≡ code.old.items ++ copy to from ∷ []) }
{
    let instr = Instr::Mov {
        width: Width::Four,
        to: Rm::Reg(Reg::Eax),
        from: Src::Reg(Reg::Ecx),
    };
    push_two(alloc, code, instr, to, from)
}

pub(crate) fn extend(
    alloc: Global,
    code: &mut Vec<VInstr>,
    width: Width,
    to: Slot,
    from: Slot,
) -> Result<(), AllocError>
    ensures { OnOk result (code.new.items ≡ code.old.items ++ extend width to from ∷ []) }
{
    let instr = Instr::Movzx {
        wide: Width::Four,
        width,
        to: Reg::Eax,
        from: Rm::Reg(Reg::Ecx),
    };
    push_two(alloc, code, instr, to, from)
}

pub(crate) fn copy_byte(
    alloc: Global,
    code: &mut Vec<VInstr>,
    to: Slot,
    from: Slot,
) -> Result<(), AllocError>
    ensures { OnOk result (code.new.items ≡ code.old.items ++ copy_byte to from ∷ []) }
{
    let instr = Instr::Mov {
        width: Width::One,
        to: Rm::Reg(Reg::Eax),
        from: Src::Reg(Reg::Ecx),
    };
    push_two(alloc, code, instr, to, from)
}

pub(crate) fn alu_by(
    alloc: Global,
    code: &mut Vec<VInstr>,
    op: AluOp,
    to: Slot,
    from: Term,
) -> Result<(), AllocError>
    requires { TermHasName from }
    ensures { OnOk result (code.new.items ≡ code.old.items ++ alu_by op to from ∷ []) }
{
    let instr = Instr::Alu {
        op,
        width: Width::Four,
        to: Rm::Reg(Reg::Eax),
        from: source_of(from),
    };
    push_with(alloc, code, instr, to, from)
}

pub(crate) fn set_if(
    alloc: Global,
    code: &mut Vec<VInstr>,
    cond: Cond,
    to: Slot,
) -> Result<(), AllocError>
    ensures { OnOk result (code.new.items ≡ code.old.items ++ set_if cond to ∷ []) }
{
    let instr = Instr::Setcc {
        cond,
        to: Rm::Reg(Reg::Eax),
    };
    push_one(alloc, code, instr, to)
}

pub(crate) fn move_if(
    alloc: Global,
    code: &mut Vec<VInstr>,
    cond: Cond,
    to: Slot,
    from: Slot,
) -> Result<(), AllocError>
    ensures { OnOk result (code.new.items ≡ code.old.items ++ move_if cond to from ∷ []) }
{
    let instr = Instr::Cmov {
        cond,
        width: Width::Four,
        to: Reg::Eax,
        from: Rm::Reg(Reg::Ecx),
    };
    push_two(alloc, code, instr, to, from)
}

pub(crate) fn shift_by(
    alloc: Global,
    code: &mut Vec<VInstr>,
    op: ShiftOp,
    count: Count,
    to: Slot,
) -> Result<(), AllocError>
    ensures { OnOk result (code.new.items ≡ code.old.items ++ shift_by op count to ∷ []) }
{
    let instr = Instr::Shift {
        op,
        width: Width::Four,
        to: Rm::Reg(Reg::Eax),
        count,
    };
    push_one(alloc, code, instr, to)
}

pub(crate) fn multiply_by(
    alloc: Global,
    code: &mut Vec<VInstr>,
    signed: bool,
    from: Slot,
) -> Result<(), AllocError>
    ensures { OnOk result (code.new.items ≡ code.old.items ++ multiply_by signed from ∷ []) }
{
    let field = Rm::Reg(Reg::Eax);
    let width = Width::Four;
    if signed {
        push_one(alloc, code, Instr::ImulWide { width, from: field }, from)
    } else {
        push_one(alloc, code, Instr::Mul { width, from: field }, from)
    }
}

pub(crate) fn divide_by(
    alloc: Global,
    code: &mut Vec<VInstr>,
    signed: bool,
    width: Width,
    from: Slot,
) -> Result<(), AllocError>
    ensures { OnOk result (code.new.items ≡ code.old.items ++ divide_by signed width from ∷ []) }
{
    let field = Rm::Reg(Reg::Eax);
    if signed {
        push_one(alloc, code, Instr::Idiv { width, from: field }, from)
    } else {
        push_one(alloc, code, Instr::Div { width, from: field }, from)
    }
}

fn based_on(reg: Reg) -> Address
    ensures { result ≡ based_on reg }
{
    Address {
        base: Some(reg),
        index: None,
        scale: 1,
        disp: 0,
    }
}

fn at_word(n: u32) -> Address
    ensures { result ≡ at_word n }
{
    Address {
        base: None,
        index: None,
        scale: 1,
        disp: n,
    }
}

fn address_of(at: Term) -> Address
    ensures { result ≡ address_of at }
{
    match at {
        Term::Var(_) => based_on(Reg::Ecx),
        Term::Word(n) => at_word(n),
    }
}

pub(crate) fn load_by(
    alloc: Global,
    code: &mut Vec<VInstr>,
    width: Width,
    to: Slot,
    at: Term,
) -> Result<(), AllocError>
    requires { TermHasName at }
    ensures { OnOk result (code.new.items ≡ code.old.items ++ load_by width to at ∷ []) }
{
    let from = address_of(at);
    let instr = match width {
        Width::One | Width::Two => Instr::Movzx {
            wide: Width::Four,
            width,
            to: Reg::Eax,
            from: Rm::Mem(from),
        },
        Width::Four => Instr::Mov {
            width,
            to: Rm::Reg(Reg::Eax),
            from: Src::Mem(from),
        },
    };
    push_with(alloc, code, instr, to, at)
}

pub(crate) fn store_by(
    alloc: Global,
    code: &mut Vec<VInstr>,
    width: Width,
    at: Term,
    from: Slot,
) -> Result<(), AllocError>
    requires { TermHasName at }
    ensures { OnOk result (code.new.items ≡ code.old.items ++ store_by width at from ∷ []) }
{
    match at {
        Term::Var(var) => push_two(
            alloc,
            code,
            Instr::Mov {
                width,
                to: Rm::Mem(based_on(Reg::Eax)),
                from: Src::Reg(Reg::Ecx),
            },
            slot_of(var),
            from,
        ),
        Term::Word(n) => push_one(
            alloc,
            code,
            Instr::Mov {
                width,
                to: Rm::Mem(at_word(n)),
                from: Src::Reg(Reg::Eax),
            },
            from,
        ),
    }
}
