// What goes by a condition. One that reads an unspecified flag makes the result unspecified, and ends a jump.
ghost use Rattle.std.specs.Prelude.{◌≡◌};
ghost use Rattle.x86_meaning.specs.Outcomes as spec;
ghost use Rattle.x86_step.specs.Computed.{computation_of, values_of};

use crate::outcome::{Computed, Way, goes, values_alone};
use crate::values::{Values, no_word};
use x86_meaning::Stop;
use x86_values::{Flags, Word, cut, word_of};

// The second word where the condition holds, else the first.
#[inline]
fn chosen(holds: Option<bool>, x: Word, y: Word) -> Word
    ensures exact { result ≡ spec.chosen holds x y }
{
    match holds {
        None => no_word(),
        Some(true) => y,
        Some(false) => x,
    }
}

/// CMOV.
#[inline]
pub(crate) fn cmov_computed(
    size: u8,
    holds: Option<bool>,
    flags: Flags,
    values: Values,
) -> Result<Computed, Stop>
    ensures exact { computation_of result ≡ spec.on_two (spec.cmov_computed size holds flags) (values_of values) }
{
    match values {
        Values::Two(x, y) => { values_alone(Values::One(cut(size, chosen(holds, x, y))), flags) }
        _ => Err(Stop::Unspecified),
    }
}

/// SETcc.
#[inline]
pub(crate) fn set_computed(holds: Option<bool>, flags: Flags) -> Result<Computed, Stop>
    ensures exact { computation_of result ≡ spec.set_computed holds flags }
{
    let value = cut(1, chosen(holds, word_of(0), word_of(1)));
    values_alone(Values::One(value), flags)
}

/// Jcc.
#[inline]
pub(crate) fn jump_computed(holds: Option<bool>, by: u32, flags: Flags) -> Result<Computed, Stop>
    ensures exact { computation_of result ≡ spec.jump_computed holds by flags }
{
    match holds {
        None => Err(Stop::Unspecified),
        Some(true) => goes(Way::JumpsBy(by), flags),
        Some(false) => goes(Way::Falls, flags),
    }
}
