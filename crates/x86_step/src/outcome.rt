// What an instruction comes to.
ghost use Rattle.std.specs.Prelude.{◌≡◌};
ghost use Rattle.x86_meaning.specs.Outcomes as spec;
ghost use Rattle.x86_step.specs.Computed.{computation_of, values_of, way_of};

use crate::values::Values;
use x86_meaning::Stop;
use x86_values::{Answered, Flags};

/// How a step goes on: to the next instruction; by so much from there, modulo 2^32; to an address; to the same instruction again; or
/// through a system call.
#[derive(Clone, Copy)]
pub(crate) enum Way {
    Falls,
    JumpsBy(u32),
    JumpsTo(u32),
    Repeats,
    Calls,
}

/// A value for each operand that is written, in order; the flags after it, and how the step goes on.
#[derive(Clone, Copy)]
pub(crate) struct Computed {
    pub values: Values,
    pub flags: Flags,
    pub way: Way,
}

/// Values, flags and a way.
#[inline]
pub(crate) fn comes_to(values: Values, flags: Flags, way: Way) -> Result<Computed, Stop>
    ensures { computation_of result ≡ spec.computed (values_of values) flags (way_of way) }
{
    Ok(Computed { values, flags, way })
}

/// Values alone: the flags stay, and the next instruction follows.
#[inline]
pub(crate) fn values_alone(values: Values, flags: Flags) -> Result<Computed, Stop>
    ensures { computation_of result ≡ spec.values_alone (values_of values) flags }
{
    comes_to(values, flags, Way::Falls)
}

/// A value and its flags.
#[inline]
pub(crate) fn value_and_flags(answered: Answered) -> Result<Computed, Stop>
    ensures { computation_of result ≡ spec.value_and_flags answered }
{
    comes_to(Values::One(answered.value), answered.flags, Way::Falls)
}

/// Flags, and no value.
#[inline]
pub(crate) fn flags_alone(answered: Answered) -> Result<Computed, Stop>
    ensures { computation_of result ≡ spec.flags_alone answered }
{
    comes_to(Values::Zero, answered.flags, Way::Falls)
}

/// A way, and no value; the flags stay.
#[inline]
pub(crate) fn goes(way: Way, flags: Flags) -> Result<Computed, Stop>
    ensures { computation_of result ≡ spec.goes (way_of way) flags }
{
    comes_to(Values::Zero, flags, way)
}

/// To an address that has to be known.
#[inline]
pub(crate) fn goes_to(values: Values, target: Option<u32>, flags: Flags) -> Result<Computed, Stop>
    ensures { computation_of result ≡ spec.goes_to (values_of values) target flags }
{
    match target {
        None => Err(Stop::Unspecified),
        Some(target) => comes_to(values, flags, Way::JumpsTo(target)),
    }
}
