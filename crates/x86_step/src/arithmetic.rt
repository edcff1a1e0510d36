// Sums, differences and bitwise operations.
ghost use Rattle.std.specs.Prelude.{◌≡◌};
ghost use Rattle.x86_meaning.specs.Outcomes as spec;
ghost use Rattle.x86_step.specs.Computed.{computation_of, values_of};
ghost use Rattle.x86_values.specs.Sizes.{IsSize};

use crate::outcome::{Computed, flags_alone, value_and_flags, values_alone};
use crate::values::Values;
use x86_meaning::Stop;
use x86_types::AluOp;
use x86_values::{Answered, Bit, Flags, Word, add, bitwise, sub, word_of};

// ADD to CMP of two words.
#[inline]
fn alu_of_words(op: AluOp, size: u8, flags: Flags, x: Word, y: Word) -> Result<Computed, Stop>
    requires size { IsSize size }
    ensures exact { computation_of result ≡ spec.alu_computed op size flags x y }
{
    match op {
        AluOp::Add => value_and_flags(add(size, x, y, Some(false))),
        AluOp::Or => value_and_flags(bitwise(Bit::Or, size, x, y)),
        AluOp::Adc => value_and_flags(add(size, x, y, flags.cf)),
        AluOp::Sbb => value_and_flags(sub(size, x, y, flags.cf)),
        AluOp::And => value_and_flags(bitwise(Bit::And, size, x, y)),
        AluOp::Sub => value_and_flags(sub(size, x, y, Some(false))),
        AluOp::Xor => value_and_flags(bitwise(Bit::Xor, size, x, y)),
        AluOp::Cmp => flags_alone(sub(size, x, y, Some(false))),
    }
}

/// ADD to CMP.
#[inline]
pub(crate) fn alu_computed(
    op: AluOp,
    size: u8,
    flags: Flags,
    values: Values,
) -> Result<Computed, Stop>
    requires size { IsSize size }
    ensures exact { computation_of result ≡ spec.on_two (spec.alu_computed op size flags) (values_of values) }
{
    match values {
        Values::Two(x, y) => alu_of_words(op, size, flags, x, y),
        _ => Err(Stop::Unspecified),
    }
}

/// TEST.
#[inline]
pub(crate) fn test_computed(size: u8, values: Values) -> Result<Computed, Stop>
    requires size { IsSize size }
    ensures exact { computation_of result ≡ spec.on_two (spec.test_computed size) (values_of values) }
{
    match values {
        Values::Two(x, y) => flags_alone(bitwise(Bit::And, size, x, y)),
        _ => Err(Stop::Unspecified),
    }
}

// INC and DEC keep CF.
#[inline(always)]
pub(crate) fn with_carry(carry: Option<bool>, answered: Answered) -> Answered
    ensures exact { result ≡ spec.with_carry carry answered }
{
    Answered {
        value: answered.value,
        flags: Flags {
            cf: carry,
            ..answered.flags
        },
    }
}

/// INC.
#[inline]
pub(crate) fn inc_computed(size: u8, flags: Flags, values: Values) -> Result<Computed, Stop>
    requires size { IsSize size }
    ensures exact { computation_of result ≡ spec.on_one (spec.inc_computed size flags) (values_of values) }
{
    match values {
        Values::One(x) => {
            value_and_flags(with_carry(flags.cf, add(size, x, word_of(1), Some(false))))
        }
        _ => Err(Stop::Unspecified),
    }
}

/// DEC.
#[inline]
pub(crate) fn dec_computed(size: u8, flags: Flags, values: Values) -> Result<Computed, Stop>
    requires size { IsSize size }
    ensures exact { computation_of result ≡ spec.on_one (spec.dec_computed size flags) (values_of values) }
{
    match values {
        Values::One(x) => {
            value_and_flags(with_carry(flags.cf, sub(size, x, word_of(1), Some(false))))
        }
        _ => Err(Stop::Unspecified),
    }
}

/// NOT.
#[inline]
pub(crate) fn not_computed(size: u8, flags: Flags, values: Values) -> Result<Computed, Stop>
    requires size { IsSize size }
    ensures exact { computation_of result ≡ spec.on_one (spec.not_computed size flags) (values_of values) }
{
    match values {
        Values::One(x) => {
            let value = bitwise(Bit::Xor, size, x, word_of(0xFFFF_FFFF)).value;
            values_alone(Values::One(value), flags)
        }
        _ => Err(Stop::Unspecified),
    }
}

/// NEG.
#[inline]
pub(crate) fn neg_computed(size: u8, values: Values) -> Result<Computed, Stop>
    requires size { IsSize size }
    ensures exact { computation_of result ≡ spec.on_one (spec.neg_computed size) (values_of values) }
{
    match values {
        Values::One(x) => value_and_flags(sub(size, word_of(0), x, Some(false))),
        _ => Err(Stop::Unspecified),
    }
}
