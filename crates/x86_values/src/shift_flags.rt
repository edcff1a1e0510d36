// What is known of CF and OF after a shift.
ghost use Rattle.std.specs.Prelude.{◌≡◌};
ghost use Rattle.x86_values.specs.Shifts as spec;
ghost use Rattle.x86_values.specs.Sizes.{IsSize};

use crate::size::bits;

/// A flag that is known where the count is less than the operand's bits.
pub(crate) fn if_within(size: u8, count: u8, flag: bool) -> Option<bool>
    requires size { IsSize size }
    ensures exact { result ≡ spec.if_within size count flag }
{
    if count < bits(size) { Some(flag) } else { None }
}

/// A flag that is known for the count 1.
pub(crate) fn if_one(count: u8, flag: bool) -> Option<bool>
    ensures exact { result ≡ spec.if_one count flag }
{
    if count == 1 { Some(flag) } else { None }
}
