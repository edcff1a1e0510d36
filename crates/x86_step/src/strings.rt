// String instructions: ESI and EDI rise, and with a repeat ECX falls and the instruction comes again, until ECX is 0 and nothing is
// read.
ghost use Rattle.std.specs.Prelude.{◌≡◌};
ghost use Rattle.x86_meaning.specs.Outcomes as spec;
ghost use Rattle.x86_step.specs.Computed.{computation_of, values_of};

use crate::addresses::{lowered_by, raised_by};
use crate::outcome::{Computed, Way, comes_to, values_alone};
use crate::values::Values;
use x86_meaning::Stop;
use x86_values::Flags;

/// MOVS of `size` bytes.
#[inline]
pub(crate) fn movs_computed(size: u8, flags: Flags, values: Values) -> Result<Computed, Stop>
    ensures exact { computation_of result ≡ spec.movs_computed size flags (values_of values) }
{
    let by = size as u32;
    match values {
        Values::Three(x, si, di) => {
            let written = Values::Three(x, raised_by(by, si), raised_by(by, di));
            values_alone(written, flags)
        }
        Values::Four(x, si, di, cx) => {
            let written = Values::Four(x, raised_by(by, si), raised_by(by, di), lowered_by(1, cx));
            comes_to(written, flags, Way::Repeats)
        }
        Values::Zero | Values::One(..) | Values::Two(..) => values_alone(Values::Zero, flags),
    }
}

/// STOS of `size` bytes.
#[inline]
pub(crate) fn stos_computed(size: u8, flags: Flags, values: Values) -> Result<Computed, Stop>
    ensures exact { computation_of result ≡ spec.stos_computed size flags (values_of values) }
{
    let by = size as u32;
    match values {
        Values::Two(x, di) => values_alone(Values::Two(x, raised_by(by, di)), flags),
        Values::Three(x, di, cx) => {
            let written = Values::Three(x, raised_by(by, di), lowered_by(1, cx));
            comes_to(written, flags, Way::Repeats)
        }
        Values::Zero | Values::One(..) | Values::Four(..) => values_alone(Values::Zero, flags),
    }
}
