// The bitwise operations.
ghost use Rattle.std.specs.Prelude.{◌≡◌};
ghost use Rattle.x86_values.specs.Logic as spec;
ghost use Rattle.x86_values.specs.LogicLaws.{LogicLaws};
ghost use Rattle.x86_values.specs.LogicRows.{UnspecifiedBitwise, WorkedBitwise, WorkedBytes};
ghost use Rattle.x86_values.specs.Sizes.{IsSize};

use crate::result::flags_of;
use crate::size::no_flags;
use crate::{Answered, Byte, Flags, Word, cut, number};

/// Which bitwise operation. Intel SDM volume 2, "AND", "OR", "XOR".
#[derive(Clone, Copy, Debug, PartialEq, Eq)]
pub enum Bit {
    And,
    Or,
    Xor,
}

// AND of two bytes: 0 on one side gives 0.
fn and_byte(left: Byte, right: Byte) -> Byte
    ensures exact { result ≡ spec.and_byte left right }
{
    match (left, right) {
        (Byte::Known(left), Byte::Known(right)) => Byte::Known(left & right),
        (Byte::Known(0), _) | (_, Byte::Known(0)) => Byte::Known(0),
        _ => Byte::Unspecified,
    }
}

// OR of two bytes: 0xFF on one side gives 0xFF.
fn or_byte(left: Byte, right: Byte) -> Byte
    ensures exact { result ≡ spec.or_byte left right }
{
    match (left, right) {
        (Byte::Known(0xFF), _) | (_, Byte::Known(0xFF)) => Byte::Known(0xFF),
        (Byte::Known(left), Byte::Known(right)) => Byte::Known(left | right),
        _ => Byte::Unspecified,
    }
}

// XOR of two bytes.
fn xor_byte(left: Byte, right: Byte) -> Byte
    ensures exact { result ≡ spec.xor_byte left right }
{
    match (left, right) {
        (Byte::Known(left), Byte::Known(right)) => Byte::Known(left ^ right),
        _ => Byte::Unspecified,
    }
}

fn byte_by(kind: Bit, left: Byte, right: Byte) -> Byte
    ensures exact { result ≡ spec.byte_by kind left right }
{
    match kind {
        Bit::And => and_byte(left, right),
        Bit::Or => or_byte(left, right),
        Bit::Xor => xor_byte(left, right),
    }
}

fn word_by(kind: Bit, left: Word, right: Word) -> Word
    ensures exact { result ≡ spec.word_by kind left right }
{
    Word {
        b0: byte_by(kind, left.b0, right.b0),
        b1: byte_by(kind, left.b1, right.b1),
        b2: byte_by(kind, left.b2, right.b2),
        b3: byte_by(kind, left.b3, right.b3),
    }
}

// The flags by a result, where each byte of it is known.
fn logic_flags(size: u8, number: Option<u32>) -> Flags
    requires size { IsSize size }
    ensures exact { result ≡ spec.logic_flags size number }
{
    match number {
        Some(number) => flags_of(size, number, Some(false), Some(false)),
        None => no_flags(),
    }
}

/// AND, OR or XOR of the lowest `size` bytes, 1, 2 or 4, of two words, with zeros above them, and the five flags after it. A byte of
/// the result is unspecified where one of its operands is, except that AND with 0 gives 0 and OR with 0xFF gives 0xFF. All flags are
/// unspecified where a byte of the result is. Intel SDM volume 2, "AND", "OR", "XOR"; "TEST" is AND whose result is dropped, and
/// "NOT" is XOR with ones whose flags are.
#[tactic(auto, unfolding(crate::specs::Logic::bitwise))]
pub fn bitwise(kind: Bit, size: u8, left: Word, right: Word) -> Answered
    requires size { IsSize size }
    ensures exact { result ≡ spec.bitwise kind size left right }
{
    let word = word_by(kind, left, right);
    Answered {
        value: cut(size, word),
        flags: logic_flags(size, number(size, word)),
    }
}

/// Does nothing: its clause is that bitwise operations are monotone in what is specified.
#[tactic(auto, using(crate::proofs::LogicLess::logic_laws))]
pub fn logic_laws()
    ensures { LogicLaws }
{}

/// Does nothing: its clauses are worked rows of bitwise operations.
#[tactic(auto, using(crate::proofs::LogicRows::worked_bytes, crate::proofs::LogicRows::worked_bitwise, crate::proofs::LogicRows::unspecified_bitwise))]
pub fn worked_bitwise()
    ensures bytes { WorkedBytes }
    ensures known { WorkedBitwise }
    ensures unspecified { UnspecifiedBitwise }
{}
