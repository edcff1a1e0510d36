// The list and the way of each instruction.
ghost use Rattle.std.specs.Prelude.{◌≡◌, ◌+◌, ◌++◌, IfOk, OnOk};
ghost use Rattle.memory.specs.Memory.{wrapped};
ghost use Rattle.x86_types.specs.declared.width.Width.TheVariants.{Four};
ghost use Rattle.lift_core.specs.Pieces.{source_of_rm, source_ops};
ghost use Rattle.lift_core.specs.Lists.{call_ops, lift_of, string_way, way_of};

use crate::Way;
use crate::arithmetic::{
    alu, dec, divide, double_shift, imul, imul_by, inc, multiply, neg, not, shift, test,
};
use crate::moves::{bswap, cmov, extend, lea, mov, movsx, movzx, scan, setcc, spread, xchg};
use crate::pieces::{source_of_rm, source_ops};
use crate::stack::{call_ops, leave, movs, pop, pop_ops, push, stos};
use crate::terms::{reg, temp, word};
use flag_ir::Op;
use lift_values::condition_ops;
use smallvec::SmallVec;
use std::alloc::{AllocError, Global};
use x86_types::{Instr, Rm, Width};

/// The address behind an instruction, modulo 2^32.
fn next_of(at: u32, len: u8) -> u32
    ensures { result ≡ wrapped (at + len) }
{
    at.wrapping_add(u32::from(len))
}

#[tactic(auto, using(std::proofs::Common::append_assoc))]
fn call_to(ops: &mut Vec<Op>, to: Rm, next: u32) -> Result<(), AllocError>
    ensures { OnOk result (ops.new.items ≡ ops.old.items ++ (source_ops 4 Four (source_of_rm to) ++ call_ops next)) }
{
    source_ops(ops, 4, Width::Four, source_of_rm(to))?;
    call_ops(ops, next)
}

#[tactic(auto, unfolding(crate::specs::Lists::lift_of))]
fn append(ops: &mut Vec<Op>, instr: Instr, at: u32, len: u8) -> Result<(), AllocError>
    ensures { OnOk result (ops.new.items ≡ ops.old.items ++ lift_of instr at len) }
{
    match instr {
        Instr::Alu {
            op,
            width,
            to,
            from,
        } => alu(ops, op, width, to, from),
        Instr::Test { width, left, right } => test(ops, width, left, right),
        Instr::Mov { width, to, from } => mov(ops, width, to, from),
        Instr::Lea { width, to, at } => lea(ops, width, to, at),
        Instr::Inc { width, to } => inc(ops, width, to),
        Instr::Dec { width, to } => dec(ops, width, to),
        Instr::Not { width, to } => not(ops, width, to),
        Instr::Neg { width, to } => neg(ops, width, to),
        Instr::Mul { width, from } => multiply(ops, false, width, from),
        Instr::ImulWide { width, from } => multiply(ops, true, width, from),
        Instr::Div { width, from } => divide(ops, false, width, from),
        Instr::Idiv { width, from } => divide(ops, true, width, from),
        Instr::Imul { width, to, from } => imul(ops, width, to, from),
        Instr::ImulBy {
            width,
            to,
            from,
            by,
        } => imul_by(ops, width, to, from, by),
        Instr::Shift {
            op,
            width,
            to,
            count,
        } => shift(ops, op, width, to, count),
        Instr::Shld { to, from, count } => double_shift(ops, false, to, from, count),
        Instr::Shrd { to, from, count } => double_shift(ops, true, to, from, count),
        Instr::Push { from } => push(ops, from),
        Instr::Pop { to } => pop(ops, to),
        Instr::Xchg { width, left, right } => xchg(ops, width, left, right),
        Instr::Movzx {
            wide,
            width,
            to,
            from,
        } => movzx(ops, wide, width, to, from),
        Instr::Movsx {
            wide,
            width,
            to,
            from,
        } => movsx(ops, wide, width, to, from),
        Instr::Cmov {
            cond,
            width,
            to,
            from,
        } => cmov(ops, cond, width, to, from),
        Instr::Setcc { cond, to } => setcc(ops, cond, to),
        Instr::Extend { width } => extend(ops, width),
        Instr::Spread { width } => spread(ops, width),
        Instr::Bsf { width, to, from } => scan(ops, false, width, to, from),
        Instr::Bsr { width, to, from } => scan(ops, true, width, to, from),
        Instr::Bswap { to } => bswap(ops, to),
        Instr::Movs { width, repeat } => movs(ops, width, repeat),
        Instr::Stos { width, repeat } => stos(ops, width, repeat),
        Instr::JmpTo { to } => source_ops(ops, 4, Width::Four, source_of_rm(to)),
        Instr::CallTo { to } => call_to(ops, to, next_of(at, len)),
        Instr::Jcc { cond, .. } => condition_ops(ops, cond),
        Instr::Call { .. } => call_ops(ops, next_of(at, len)),
        Instr::Ret { drop } => pop_ops(ops, 4 + u32::from(drop)),
        Instr::Leave => leave(ops),
        Instr::Int80 => ops.extend_from_slice(&[Op::System]),
        Instr::Jmp { .. } | Instr::Cld | Instr::Nop => Ok(()),
    }
}

/// The list of an instruction that stands at an address, with its length in bytes. It fails only where memory runs out.
pub fn lift(
    alloc: Global,
    instr: &Instr,
    at: u32,
    len: u8,
) -> Result<SmallVec<Op, 16, Global>, AllocError>
    ensures { IfOk result (λ ops. ops.items ≡ lift_of instr.now at len) }
{
    let mut ops = Vec::new(alloc);
    append(&mut ops, *instr, at, len)?;
    SmallVec::from_slice(alloc, ops.as_slice())
}

fn string_way(repeat: bool, at: u32, next: u32) -> Way
    ensures { result ≡ string_way repeat at next }
{
    if repeat {
        Way::Repeat(reg(1), word(1), at, next)
    } else {
        Way::On(next)
    }
}

/// How an instruction that stands at an address, with its length in bytes, goes on behind its list.
#[tactic(auto, unfolding(crate::specs::Lists::way_of))]
pub fn exit_of(instr: &Instr, at: u32, len: u8) -> Way
    ensures { result ≡ way_of instr.now at len }
{
    let next = next_of(at, len);
    match *instr {
        Instr::Movs { repeat, .. } | Instr::Stos { repeat, .. } => string_way(repeat, at, next),
        Instr::Jmp { by } | Instr::Call { by } => Way::On(next.wrapping_add(by)),
        Instr::JmpTo { .. } | Instr::CallTo { .. } => Way::To(temp(4)),
        Instr::Jcc { by, .. } => Way::Either(temp(4), next.wrapping_add(by), next),
        Instr::Ret { .. } => Way::Back(temp(4)),
        Instr::Alu { .. }
        | Instr::Test { .. }
        | Instr::Mov { .. }
        | Instr::Lea { .. }
        | Instr::Inc { .. }
        | Instr::Dec { .. }
        | Instr::Not { .. }
        | Instr::Neg { .. }
        | Instr::Mul { .. }
        | Instr::ImulWide { .. }
        | Instr::Div { .. }
        | Instr::Idiv { .. }
        | Instr::Imul { .. }
        | Instr::ImulBy { .. }
        | Instr::Shift { .. }
        | Instr::Shld { .. }
        | Instr::Shrd { .. }
        | Instr::Push { .. }
        | Instr::Pop { .. }
        | Instr::Xchg { .. }
        | Instr::Movzx { .. }
        | Instr::Movsx { .. }
        | Instr::Cmov { .. }
        | Instr::Setcc { .. }
        | Instr::Extend { .. }
        | Instr::Spread { .. }
        | Instr::Bsf { .. }
        | Instr::Bsr { .. }
        | Instr::Bswap { .. }
        | Instr::Leave
        | Instr::Int80
        | Instr::Cld
        | Instr::Nop => Way::On(next),
    }
}
