// Numbers times powers of two.
ghost use Rattle.std.specs.Prelude.{◌≡◌, ◌-◌, ◌*◌, ◌<◌, ◌≤◌, ◌^◌, ◌%◌};
ghost use Rattle.x86_values.specs.Sizes as sizes;
ghost use Rattle.x86_values.specs.Sizes.{IsSize};

use crate::size::full;

/// A power of two.
#[tactic(auto, using(crate::proofs::Powers::powers))]
pub(crate) fn power(exponent: u8) -> u64
    requires small { exponent ≤ 32 }
    ensures exact { result ≡ 2 ^ exponent }
    ensures bound { result ≤ 2 ^ 32 }
    ensures positive { 0 < result }
{
    1 << exponent
}

/// A number times a power of two.
#[tactic(auto, using(crate::proofs::Powers::powers))]
pub(crate) fn scaled(number: u32, exponent: u8) -> u64
    requires small { exponent ≤ 32 }
    ensures exact { result ≡ number * 2 ^ exponent }
    ensures bound { result ≤ 2 ^ 64 - 2 ^ 32 }
{
    (number as u64) << exponent
}

/// A number modulo the range of a size.
#[tactic(auto, using(crate::proofs::Powers::powers))]
pub(crate) fn wrapped(size: u8, number: u64) -> u32
    requires size { IsSize size }
    ensures exact { result ≡ number % sizes.full size }
{
    (number % full(size)) as u32
}
