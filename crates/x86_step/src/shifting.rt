// Shifts and rotates: the count is the lowest byte of its operand.
ghost use Rattle.std.specs.Prelude.{◌≡◌};
ghost use Rattle.x86_meaning.specs.Outcomes as spec;
ghost use Rattle.x86_step.specs.Computed.{computation_of, values_of};
ghost use Rattle.x86_values.specs.Sizes.{IsSize};

use crate::outcome::{Computed, value_and_flags};
use crate::values::Values;
use x86_meaning::Stop;
use x86_types::ShiftOp;
use x86_values::{Flags, double_shift, shift};

/// SHL, SHR, SAR, ROL and ROR.
#[inline]
pub(crate) fn shift_computed(
    op: ShiftOp,
    size: u8,
    flags: Flags,
    values: Values,
) -> Result<Computed, Stop>
    requires size { IsSize size }
    ensures exact { computation_of result ≡ spec.on_two (spec.shift_computed op size flags) (values_of values) }
{
    match values {
        Values::Two(x, count) => value_and_flags(shift(op, size, x, count.b0, flags)),
        _ => Err(Stop::Unspecified),
    }
}

/// SHLD, and SHRD where it goes to the right.
#[inline]
pub(crate) fn double_shift_computed(
    right: bool,
    flags: Flags,
    values: Values,
) -> Result<Computed, Stop>
    ensures exact { computation_of result ≡ spec.on_three (spec.double_shift_computed right flags) (values_of values) }
{
    match values {
        Values::Three(x, filler, count) => {
            value_and_flags(double_shift(right, x, filler, count.b0, flags))
        }
        _ => Err(Stop::Unspecified),
    }
}
