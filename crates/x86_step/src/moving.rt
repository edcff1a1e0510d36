// Moves, exchanges, extensions, bit scans and swaps of bytes.
ghost use Rattle.std.specs.Prelude.{◌≡◌, ◌/◌};
ghost use Rattle.x86_meaning.specs.Outcomes as spec;
ghost use Rattle.x86_step.specs.Computed.{computation_of, values_of};
ghost use Rattle.x86_types.specs.Numbers.{size_of};
ghost use Rattle.x86_values.specs.Sizes.{IsSize};

use crate::outcome::{Computed, value_and_flags, values_alone};
use crate::values::Values;
use x86_meaning::Stop;
use x86_types::Width;
use x86_values::{Flags, bytes_swapped, cut, scan, sign_extended, sign_word};

/// MOV, LEA and MOVZX.
#[inline]
pub(crate) fn move_computed(flags: Flags, values: Values) -> Result<Computed, Stop>
    ensures exact { computation_of result ≡ spec.on_one (spec.move_computed flags) (values_of values) }
{
    match values {
        Values::One(x) => values_alone(Values::One(x), flags),
        _ => Err(Stop::Unspecified),
    }
}

/// XCHG.
#[inline]
pub(crate) fn exchange_computed(flags: Flags, values: Values) -> Result<Computed, Stop>
    ensures exact { computation_of result ≡ spec.on_two (spec.exchange_computed flags) (values_of values) }
{
    match values {
        Values::Two(x, y) => values_alone(Values::Two(y, x), flags),
        _ => Err(Stop::Unspecified),
    }
}

/// MOVSX of `size` bytes to `wide` bytes.
#[inline]
pub(crate) fn extend_computed(
    wide: u8,
    size: u8,
    flags: Flags,
    values: Values,
) -> Result<Computed, Stop>
    requires size { IsSize size }
    ensures exact { computation_of result ≡ spec.on_one (spec.extend_computed wide size flags) (values_of values) }
{
    match values {
        Values::One(x) => values_alone(Values::One(cut(wide, sign_extended(size, x))), flags),
        _ => Err(Stop::Unspecified),
    }
}

// A byte has no half, and stays as it is.
#[inline]
#[tactic(auto, unfolding(x86_values::specs::Sizes::cut, x86_values::specs::Extensions::sign_extended))]
fn byte_extended(flags: Flags, values: Values) -> Result<Computed, Stop>
    ensures exact { computation_of result ≡ spec.on_one (spec.extend_computed 1 0 flags) (values_of values) }
{
    match values {
        Values::One(x) => values_alone(Values::One(cut(1, x)), flags),
        _ => Err(Stop::Unspecified),
    }
}

/// CBW and CWDE: the lower half of a width is extended.
#[inline]
pub(crate) fn half_extended(width: Width, flags: Flags, values: Values) -> Result<Computed, Stop>
    ensures exact { computation_of result ≡ spec.on_one (spec.extend_computed (size_of width) (size_of width / 2) flags) (values_of values) }
{
    match width {
        Width::One => byte_extended(flags, values),
        Width::Two => extend_computed(2, 1, flags, values),
        Width::Four => extend_computed(4, 2, flags, values),
    }
}

/// CWD and CDQ.
#[inline]
pub(crate) fn spread_computed(size: u8, flags: Flags, values: Values) -> Result<Computed, Stop>
    requires size { IsSize size }
    ensures exact { computation_of result ≡ spec.on_one (spec.spread_computed size flags) (values_of values) }
{
    match values {
        Values::One(x) => values_alone(Values::One(sign_word(size, x)), flags),
        _ => Err(Stop::Unspecified),
    }
}

/// BSF and BSR.
#[inline]
pub(crate) fn scan_computed(reverse: bool, size: u8, values: Values) -> Result<Computed, Stop>
    requires size { IsSize size }
    ensures exact { computation_of result ≡ spec.on_one (spec.scan_computed reverse size) (values_of values) }
{
    match values {
        Values::One(x) => value_and_flags(scan(reverse, size, x)),
        _ => Err(Stop::Unspecified),
    }
}

/// BSWAP.
#[inline]
pub(crate) fn swap_computed(flags: Flags, values: Values) -> Result<Computed, Stop>
    ensures exact { computation_of result ≡ spec.on_one (spec.swap_computed flags) (values_of values) }
{
    match values {
        Values::One(x) => values_alone(Values::One(bytes_swapped(x)), flags),
        _ => Err(Stop::Unspecified),
    }
}
