// The stack, calls and returns, and jumps to an address.
ghost use Rattle.std.specs.Prelude.{◌≡◌};
ghost use Rattle.x86_meaning.specs.Outcomes as spec;
ghost use Rattle.x86_step.specs.Computed.{computation_of, values_of};

use crate::addresses::{lowered_by, raised_by};
use crate::outcome::{Computed, Way, comes_to, goes_to, values_alone};
use crate::values::Values;
use x86_meaning::Stop;
use x86_values::{Flags, known, word_of};

/// PUSH.
#[inline]
pub(crate) fn push_computed(flags: Flags, values: Values) -> Result<Computed, Stop>
    ensures exact { computation_of result ≡ spec.on_two (spec.push_computed flags) (values_of values) }
{
    match values {
        Values::Two(esp, x) => values_alone(Values::Two(x, lowered_by(4, esp)), flags),
        _ => Err(Stop::Unspecified),
    }
}

/// POP and LEAVE.
#[inline]
pub(crate) fn pop_computed(flags: Flags, values: Values) -> Result<Computed, Stop>
    ensures exact { computation_of result ≡ spec.on_two (spec.pop_computed flags) (values_of values) }
{
    match values {
        Values::Two(esp, x) => values_alone(Values::Two(raised_by(4, esp), x), flags),
        _ => Err(Stop::Unspecified),
    }
}

/// CALL by so much from the next instruction, whose address is pushed.
#[inline]
pub(crate) fn call_computed(
    by: u32,
    next: u32,
    flags: Flags,
    values: Values,
) -> Result<Computed, Stop>
    ensures exact { computation_of result ≡ spec.on_one (spec.call_computed by next flags) (values_of values) }
{
    match values {
        Values::One(esp) => {
            let pushed = Values::Two(word_of(next), lowered_by(4, esp));
            comes_to(pushed, flags, Way::JumpsBy(by))
        }
        _ => Err(Stop::Unspecified),
    }
}

/// CALL to an address.
#[inline]
pub(crate) fn call_to_computed(next: u32, flags: Flags, values: Values) -> Result<Computed, Stop>
    ensures exact { computation_of result ≡ spec.on_two (spec.call_to_computed next flags) (values_of values) }
{
    match values {
        Values::Two(esp, target) => {
            let pushed = Values::Two(word_of(next), lowered_by(4, esp));
            goes_to(pushed, known(target), flags)
        }
        _ => Err(Stop::Unspecified),
    }
}

/// RET, which drops so many bytes behind the address.
#[inline]
pub(crate) fn ret_computed(drop: u16, flags: Flags, values: Values) -> Result<Computed, Stop>
    ensures exact { computation_of result ≡ spec.on_two (spec.ret_computed drop flags) (values_of values) }
{
    match values {
        Values::Two(esp, target) => {
            let raised = raised_by(4 + drop as u32, esp);
            goes_to(Values::One(raised), known(target), flags)
        }
        _ => Err(Stop::Unspecified),
    }
}

/// JMP to an address.
#[inline]
pub(crate) fn jump_to_computed(flags: Flags, values: Values) -> Result<Computed, Stop>
    ensures exact { computation_of result ≡ spec.on_one (spec.jump_to_computed flags) (values_of values) }
{
    match values {
        Values::One(target) => goes_to(Values::Zero, known(target), flags),
        _ => Err(Stop::Unspecified),
    }
}
