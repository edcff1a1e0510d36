// Calculations on two words.
ghost use Rattle.std.specs.Prelude.{◌≡◌};
ghost use Rattle.x86_values.specs.Words as words;
ghost use Rattle.flag_ir.specs.Calculations as spec;

use crate::values::no_word;
use flag_ir::Calc;
use x86_values::{Bit, Flags, Shifting, Word, add, bitwise, known, multiply, shift, sub, word_of};

// The word of a shift by the lowest byte of another.
#[tactic(auto, unfolding(flag_ir::specs::Calculations::shifted_of))]
fn shifted(kind: Shifting, left: Word, right: Word) -> Word
    ensures { result ≡ spec.shifted_of kind left right }
{
    let old = Flags {
        cf: None,
        pf: None,
        zf: None,
        sf: None,
        of: None,
    };
    shift(kind, 4, left, right.b0, old).value
}

// The word of a test.
fn one_if(test: bool) -> Word
    ensures { result ≡ words.word_of (spec.one_if test) }
{
    if test { word_of(1) } else { word_of(0) }
}

#[tactic(auto, unfolding(flag_ir::specs::Calculations::equal_of))]
fn equal(left: Word, right: Word) -> Word
    ensures { result ≡ spec.equal_of left right }
{
    match (known(left), known(right)) {
        (Some(left), Some(right)) => one_if(left == right),
        _ => no_word(),
    }
}

#[tactic(auto, unfolding(flag_ir::specs::Calculations::below_of))]
fn below(left: Word, right: Word) -> Word
    ensures { result ≡ spec.below_of left right }
{
    match (known(left), known(right)) {
        (Some(left), Some(right)) => one_if(left < right),
        _ => no_word(),
    }
}

#[tactic(auto, unfolding(flag_ir::specs::Calculations::less_of))]
fn less(left: Word, right: Word) -> Word
    ensures { result ≡ spec.less_of left right }
{
    match (known(left), known(right)) {
        (Some(left), Some(right)) => one_if(
            left.wrapping_add(0x8000_0000) < right.wrapping_add(0x8000_0000),
        ),
        _ => no_word(),
    }
}

/// The word of a calculation.
#[tactic(auto, unfolding(flag_ir::specs::Calculations::sum_of, flag_ir::specs::Calculations::difference_of, flag_ir::specs::Calculations::and_of, flag_ir::specs::Calculations::or_of, flag_ir::specs::Calculations::xor_of, flag_ir::specs::Calculations::product_of, flag_ir::specs::Calculations::upper_product_of))]
pub(crate) fn calculate(calc: Calc, left: Word, right: Word) -> Word
    ensures { result ≡ spec.calculate calc left right }
{
    match calc {
        Calc::Add => add(4, left, right, Some(false)).value,
        Calc::Sub => sub(4, left, right, Some(false)).value,
        Calc::And => bitwise(Bit::And, 4, left, right).value,
        Calc::Or => bitwise(Bit::Or, 4, left, right).value,
        Calc::Xor => bitwise(Bit::Xor, 4, left, right).value,
        Calc::Mul => multiply(false, 4, left, right).low,
        Calc::Mulhu => multiply(false, 4, left, right).high,
        Calc::Mulhs => multiply(true, 4, left, right).high,
        Calc::Shl => shifted(Shifting::Shl, left, right),
        Calc::Shr => shifted(Shifting::Shr, left, right),
        Calc::Sar => shifted(Shifting::Sar, left, right),
        Calc::Eq => equal(left, right),
        Calc::Ltu => below(left, right),
        Calc::Lts => less(left, right),
    }
}
