// Passes are put together.
ghost use Rattle.std.specs.Prelude.{◌≡◌};

use crate::Pass;
use crate::chain::Then;

/// The pass that applies one pass, and another to what that gives.
pub fn then<A: Pass, B: Pass>(first: A, second: B) -> Then<A, B>
    ensures first { result.first ≡ first }
    ensures second { result.second ≡ second }
{
    Then { first, second }
}
