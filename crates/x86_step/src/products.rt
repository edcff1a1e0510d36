// Products and divisions.
ghost use Rattle.std.specs.Prelude.{◌≡◌};
ghost use Rattle.x86_meaning.specs.Outcomes as spec;
ghost use Rattle.x86_step.specs.Computed.{computation_of, values_of};
ghost use Rattle.x86_values.specs.Results as results;
ghost use Rattle.x86_values.specs.Sizes.{IsSize};

use crate::outcome::{Computed, Way, comes_to};
use crate::values::Values;
use x86_meaning::Stop;
use x86_values::{Divided, Flags, divide, multiply};

/// MUL and IMUL with both halves of the product.
#[inline]
pub(crate) fn mul_computed(signed: bool, size: u8, values: Values) -> Result<Computed, Stop>
    requires size { IsSize size }
    ensures exact { computation_of result ≡ spec.on_two (spec.mul_computed signed size) (values_of values) }
{
    match values {
        Values::Two(x, y) => {
            let product = multiply(signed, size, x, y);
            comes_to(
                Values::Two(product.low, product.high),
                product.flags,
                Way::Falls,
            )
        }
        _ => Err(Stop::Unspecified),
    }
}

/// IMUL with the lower half of the product.
#[inline]
pub(crate) fn imul_computed(size: u8, values: Values) -> Result<Computed, Stop>
    requires size { IsSize size }
    ensures exact { computation_of result ≡ spec.on_two (spec.imul_computed size) (values_of values) }
{
    match values {
        Values::Two(x, y) => {
            let product = multiply(true, size, x, y);
            comes_to(Values::One(product.low), product.flags, Way::Falls)
        }
        _ => Err(Stop::Unspecified),
    }
}

// Flags that are all unspecified.
#[inline]
fn no_flags() -> Flags
    ensures exact { result ≡ results.no_flags }
{
    Flags {
        cf: None,
        pf: None,
        zf: None,
        sf: None,
        of: None,
    }
}

// All flags are unspecified after a division.
#[inline]
fn quotient_and_remainder(divided: Divided) -> Result<Computed, Stop>
    ensures exact { computation_of result ≡ spec.quotient_and_remainder divided }
{
    match divided {
        Divided::Got(quotient, remainder) => {
            comes_to(Values::Two(quotient, remainder), no_flags(), Way::Falls)
        }
        Divided::Fault => Err(Stop::DivideFault),
        Divided::Unspecified => Err(Stop::Unspecified),
    }
}

/// DIV and IDIV.
#[inline]
pub(crate) fn div_computed(signed: bool, size: u8, values: Values) -> Result<Computed, Stop>
    requires size { IsSize size }
    ensures exact { computation_of result ≡ spec.on_three (spec.div_computed signed size) (values_of values) }
{
    match values {
        Values::Three(high, low, by) => {
            quotient_and_remainder(divide(signed, size, high, low, by))
        }
        _ => Err(Stop::Unspecified),
    }
}
