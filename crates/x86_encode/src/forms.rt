ghost use Rattle.x86_encode.specs.Choice.{forms_at};
ghost use Rattle.x86_encode.specs.Text.{AreOffered};

use crate::arithmetic::{alu, double, imul_by, shift, test, to_reg};
use crate::jumps::{jcc, jmp, nop, ret};
use crate::moves::{alone, lea, mov, pop, push, widen, xchg};
use crate::offer::{offer_plain, offer_repeated, offer_rm};
use crate::parts::is_full;
use crate::steps::{dec, inc};
use crate::text::Text;
use x86_grammar::Row;
use x86_types::{Instr, Width};

/// Offers each form of the instruction, without the short jumps where `wide`: `best` becomes the first
/// in order of what it was and of each form's best text.
pub(crate) fn offer_forms(best: &mut Text, wide: bool, instr: Instr)
    ensures { AreOffered (forms_at wide instr) best.old best.new }
{
    match instr {
        Instr::Alu {
            op,
            width,
            to,
            from,
        } => alu(best, op, width, to, from),
        Instr::Test { width, left, right } => test(best, width, left, right),
        Instr::Mov { width, to, from } => mov(best, width, to, from),
        Instr::Lea { width, to, at } => lea(best, width, to, at),
        Instr::Inc { width, to } => inc(best, width, to),
        Instr::Dec { width, to } => dec(best, width, to),
        Instr::Not { width, to } => offer_rm(best, Row::Not(is_full(width)), width, 2, to, 0),
        Instr::Neg { width, to } => offer_rm(best, Row::Neg(is_full(width)), width, 3, to, 0),
        Instr::Mul { width, from } => offer_rm(best, Row::Mul(is_full(width)), width, 4, from, 0),
        Instr::ImulWide { width, from } => {
            offer_rm(best, Row::ImulWide(is_full(width)), width, 5, from, 0)
        }
        Instr::Div { width, from } => offer_rm(best, Row::Div(is_full(width)), width, 6, from, 0),
        Instr::Idiv { width, from } => offer_rm(best, Row::Idiv(is_full(width)), width, 7, from, 0),
        Instr::Imul { width, to, from } => to_reg(best, Row::Imul, width, to, from),
        Instr::ImulBy {
            width,
            to,
            from,
            by,
        } => imul_by(best, width, to, from, by),
        Instr::Shift {
            op,
            width,
            to,
            count,
        } => shift(best, op, width, to, count),
        Instr::Shld { to, from, count } => {
            double(best, Row::ShldImm, Row::ShldCl, to, from, count)
        }
        Instr::Shrd { to, from, count } => {
            double(best, Row::ShrdImm, Row::ShrdCl, to, from, count)
        }
        Instr::Push { from } => push(best, from),
        Instr::Pop { to } => pop(best, to),
        Instr::Xchg { width, left, right } => xchg(best, width, left, right),
        Instr::Movzx {
            wide,
            width,
            to,
            from,
        } => { widen(best, Row::MovzxByte, Row::MovzxWord, wide, width, to, from) }
        Instr::Movsx {
            wide,
            width,
            to,
            from,
        } => { widen(best, Row::MovsxByte, Row::MovsxWord, wide, width, to, from) }
        Instr::Cmov {
            cond,
            width,
            to,
            from,
        } => to_reg(best, Row::Cmov(cond), width, to, from),
        Instr::Setcc { cond, to } => offer_rm(best, Row::Setcc(cond), Width::Four, 0, to, 0),
        Instr::Extend { width } => alone(best, Row::Extend, width),
        Instr::Spread { width } => alone(best, Row::Spread, width),
        Instr::Bsf { width, to, from } => to_reg(best, Row::Bsf, width, to, from),
        Instr::Bsr { width, to, from } => to_reg(best, Row::Bsr, width, to, from),
        Instr::Bswap { to } => offer_plain(best, Row::BswapReg(to), Width::Four, 0),
        Instr::Movs { width, repeat } => {
            offer_repeated(best, Row::Movs(is_full(width)), width, repeat, 0)
        }
        Instr::Stos { width, repeat } => {
            offer_repeated(best, Row::Stos(is_full(width)), width, repeat, 0)
        }
        Instr::Jmp { by } => jmp(best, wide, by),
        Instr::JmpTo { to } => offer_rm(best, Row::JmpTo, Width::Four, 4, to, 0),
        Instr::CallTo { to } => offer_rm(best, Row::CallTo, Width::Four, 2, to, 0),
        Instr::Jcc { cond, by } => jcc(best, wide, cond, by),
        Instr::Call { by } => offer_plain(best, Row::CallNear, Width::Four, by),
        Instr::Ret { drop } => ret(best, drop),
        Instr::Leave => offer_plain(best, Row::Leave, Width::Four, 0),
        Instr::Int80 => offer_plain(best, Row::Int80, Width::Four, 128),
        Instr::Cld => offer_plain(best, Row::Cld, Width::Four, 0),
        Instr::Nop => nop(best),
    }
}
