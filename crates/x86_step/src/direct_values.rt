// What the commonest instructions read, and what they compute of words that are known.
ghost use Rattle.std.specs.Prelude.{◌≡◌, ◌&&◌, ◌+◌, ◌*◌, false, ◌∷◌, [], Some, IfSome};
ghost use Rattle.mem_pages.specs.Contents.{memory_in};
ghost use Rattle.x86_types.specs.declared.width.Width.TheVariants as widths;
ghost use Rattle.x86_values.specs.declared.byte.Byte.TheVariants.{Known};
ghost use Rattle.x86_values.specs.declared.logic.Bit.TheVariants as bits;
ghost use Rattle.x86_values.specs.Logic as logic;
ghost use Rattle.x86_values.specs.Sums as sums;
ghost use Rattle.x86_meaning.specs.Operands as spec;
ghost use Rattle.x86_meaning.specs.TransferShapes as shapes;
ghost use Rattle.x86_meaning.specs.Outcomes as outcomes;
ghost use Rattle.x86_values.specs.declared.word.Flags.{Flags};
ghost use Rattle.x86_values.specs.Results as results;
ghost use Rattle.x86_meaning.specs.Registers.{machine_naming};
ghost use Rattle.x86_step.specs.Direct.{HasWord, answer_of, is_itself};
ghost use Rattle.x86_step.specs.Steps.{registers_of};

use crate::fast_sums::{difference, flags_with, sum};
use crate::numbers::{number_in, word_with};
use crate::operand::{effective_address, word_in};
use crate::shapes::cancels;
use mem_pages::Pages;
use x86_meaning::Cpu;
use x86_types::{AluOp, Reg, Rm, Src, reg_number};
use x86_values::{Answered, Byte, Word};

/// The word of an operand that is read; `None` where its address isn't known or its load isn't allowed.
#[inline(always)]
#[tactic(auto, using(crate::proofs::DirectReads::register_word, crate::proofs::DirectReads::constant_word, crate::proofs::DirectReads::memory_word))]
pub(crate) fn word_from(cpu: &Cpu, mem: &Pages, from: Src) -> Option<Word>
    ensures { IfSome result (λ w. HasWord 4 (spec.source_of machine_naming (registers_of cpu.now.regs) widths.Four from) w (registers_of cpu.now.regs) (memory_in mem.now)) }
{
    match from {
        Src::Reg(reg) => Some(word_in(cpu, reg)),
        Src::Imm(number) => Some(word_with(number)),
        Src::Mem(at) => match effective_address(cpu, at) {
            None => None,
            Some(at) => mem.load(at, 4),
        },
    }
}

/// The same, of the operand of the rm field.
#[inline(always)]
#[tactic(auto, using(crate::proofs::DirectReads::register_word, crate::proofs::DirectReads::memory_word))]
pub(crate) fn word_at(cpu: &Cpu, mem: &Pages, from: Rm) -> Option<Word>
    ensures { IfSome result (λ w. HasWord 4 (spec.location_of machine_naming (registers_of cpu.now.regs) widths.Four from) w (registers_of cpu.now.regs) (memory_in mem.now)) }
{
    match from {
        Rm::Reg(reg) => Some(word_in(cpu, reg)),
        Rm::Mem(at) => match effective_address(cpu, at) {
            None => None,
            Some(at) => mem.load(at, 4),
        },
    }
}

/// Whether SUB, SBB, XOR or CMP takes a register with itself.
#[inline(always)]
pub(crate) fn cancels_itself(op: AluOp, to: Reg, from: Src) -> bool
    ensures { result ≡ (shapes.cancels op && is_itself to from) }
{
    match from {
        Src::Reg(reg) => cancels(op) && reg_number(to) == reg_number(reg),
        Src::Imm(_) => false,
        Src::Mem(_) => false,
    }
}

/// The sum of two words, where both are known.
#[inline(always)]
#[tactic(auto, using(crate::proofs::FourBytes::added))]
pub(crate) fn sum_of(x: Word, y: Word) -> Option<Answered>
    ensures { IfSome result (λ a. a ≡ sums.add 4 x y (Some false)) }
{
    match (number_in(x), number_in(y)) {
        (Some(x), Some(y)) => Some(sum(x, y, false)),
        _ => None,
    }
}

/// Their difference.
#[inline(always)]
#[tactic(auto, using(crate::proofs::FourBytes::subtracted))]
pub(crate) fn difference_of(x: Word, y: Word) -> Option<Answered>
    ensures { IfSome result (λ a. a ≡ sums.sub 4 x y (Some false)) }
{
    match (number_in(x), number_in(y)) {
        (Some(x), Some(y)) => Some(difference(x, y, false)),
        _ => None,
    }
}

// The word of four bytes that are known, and the flags that a bitwise operation sets by it.
#[inline(always)]
fn logic_answer(a: u8, b: u8, c: u8, d: u8) -> Answered
    ensures value { result.value ≡ record { b0 = Known a; b1 = Known b; b2 = Known c; b3 = Known d } }
    ensures flags { result.flags ≡ results.flags_of 4 (a + 256 * b + 65536 * c + 16777216 * d) (Some false) (Some false) }
{
    let number = a as u32 + 256 * b as u32 + 65536 * c as u32 + 16777216 * d as u32;
    Answered {
        value: Word {
            b0: Byte::Known(a),
            b1: Byte::Known(b),
            b2: Byte::Known(c),
            b3: Byte::Known(d),
        },
        flags: flags_with(number, false, false),
    }
}

// The bytes of a word, where all are known.
#[inline(always)]
fn bytes_in(word: Word) -> Option<(u8, u8, u8, u8)>
    ensures { IfSome result (λ b. word ≡ record { b0 = Known b.0; b1 = Known b.1; b2 = Known b.2; b3 = Known b.3 }) }
{
    match (word.b0, word.b1, word.b2, word.b3) {
        (Byte::Known(a), Byte::Known(b), Byte::Known(c), Byte::Known(d)) => Some((a, b, c, d)),
        _ => None,
    }
}

/// AND of two words, where both are known.
#[inline(always)]
pub(crate) fn and_of(x: Word, y: Word) -> Option<Answered>
    ensures { IfSome result (λ a. a ≡ logic.bitwise bits.And 4 x y) }
{
    match (bytes_in(x), bytes_in(y)) {
        (Some(p), Some(q)) => Some(logic_answer(p.0 & q.0, p.1 & q.1, p.2 & q.2, p.3 & q.3)),
        _ => None,
    }
}

/// XOR of two words, where both are known.
#[inline(always)]
pub(crate) fn xor_of(x: Word, y: Word) -> Option<Answered>
    ensures { IfSome result (λ a. a ≡ logic.bitwise bits.Xor 4 x y) }
{
    match (bytes_in(x), bytes_in(y)) {
        (Some(p), Some(q)) => Some(logic_answer(p.0 ^ q.0, p.1 ^ q.1, p.2 ^ q.2, p.3 ^ q.3)),
        _ => None,
    }
}

/// The result and the flags of ADD, SUB, CMP, AND and XOR of two words, where both are known.
#[inline(always)]
pub(crate) fn alu_answer(op: AluOp, x: Word, y: Word) -> Option<Answered>
    ensures { IfSome result (λ a. (f : Flags) → outcomes.alu_computed op 4 f x y ≡ answer_of op a) }
{
    match op {
        AluOp::Add => sum_of(x, y),
        AluOp::Sub => difference_of(x, y),
        AluOp::Cmp => difference_of(x, y),
        AluOp::And => and_of(x, y),
        AluOp::Xor => xor_of(x, y),
        AluOp::Or => None,
        AluOp::Adc => None,
        AluOp::Sbb => None,
    }
}
