// The conditions of jumps, of sets and of moves.
ghost use Rattle.std.specs.Prelude.{◌≡◌, not};
ghost use Rattle.std.specs.Option.{option_map};
ghost use Rattle.x86_values.specs.ConditionLaws.{ConditionLaws};
ghost use Rattle.x86_values.specs.ConditionRows.{OfOneFlag, OfOneUnspecified, OfThreeFlags, OfTwoFlags, OfTwoUnspecified};
ghost use Rattle.x86_values.specs.Conditions as spec;
ghost use Rattle.x86_values.specs.Results as results;

use crate::Flags;
use crate::result::differ;
use x86_types::Cond;

fn negated(flag: Option<bool>) -> Option<bool>
    ensures exact { result ≡ option_map not flag }
{
    match flag {
        Some(flag) => Some(!flag),
        None => None,
    }
}

// CF or ZF.
fn below_or_equal(flags: Flags) -> Option<bool>
    ensures exact { result ≡ spec.of_two spec.is_below_or_equal flags.cf flags.zf }
{
    match (flags.cf, flags.zf) {
        (Some(cf), Some(zf)) => Some(cf || zf),
        _ => None,
    }
}

// SF differs from OF.
fn less(flags: Flags) -> Option<bool>
    ensures exact { result ≡ spec.of_two results.differ flags.sf flags.of }
{
    match (flags.sf, flags.of) {
        (Some(sf), Some(of)) => Some(differ(sf, of)),
        _ => None,
    }
}

// ZF, or SF differs from OF.
fn less_or_equal(flags: Flags) -> Option<bool>
    ensures exact { result ≡ spec.of_three spec.is_less_or_equal flags.zf flags.sf flags.of }
{
    match (flags.zf, flags.sf, flags.of) {
        (Some(zf), Some(sf), Some(of)) => Some(zf || differ(sf, of)),
        _ => None,
    }
}

/// Whether a condition holds by the flags; `None` exactly where one of the flags that it names is unspecified, whatever the others
/// are. Intel SDM volume 1, appendix B, table B-1; volume 2, "Jcc", "SETcc", "CMOVcc".
pub fn condition(cond: Cond, flags: Flags) -> Option<bool>
    ensures exact { result ≡ spec.condition cond flags }
{
    match cond {
        Cond::O => flags.of,
        Cond::No => negated(flags.of),
        Cond::B => flags.cf,
        Cond::Ae => negated(flags.cf),
        Cond::E => flags.zf,
        Cond::Ne => negated(flags.zf),
        Cond::Be => below_or_equal(flags),
        Cond::A => negated(below_or_equal(flags)),
        Cond::S => flags.sf,
        Cond::Ns => negated(flags.sf),
        Cond::P => flags.pf,
        Cond::Np => negated(flags.pf),
        Cond::L => less(flags),
        Cond::Ge => negated(less(flags)),
        Cond::Le => less_or_equal(flags),
        Cond::G => negated(less_or_equal(flags)),
    }
}

/// Does nothing: its clause is that conditions are monotone in what is specified.
#[tactic(auto, using(crate::proofs::ConditionsLess::condition_laws))]
pub fn condition_laws()
    ensures { ConditionLaws }
{}

/// Does nothing: its clauses are worked rows of conditions.
#[tactic(auto, using(crate::proofs::ConditionRows::of_one_flag, crate::proofs::ConditionRows::of_one_unspecified, crate::proofs::ConditionRows::of_two_flags, crate::proofs::ConditionRows::of_two_unspecified, crate::proofs::ConditionRows::of_three_flags))]
pub fn worked_conditions()
    ensures one_flag { OfOneFlag }
    ensures one_unspecified { OfOneUnspecified }
    ensures two_flags { OfTwoFlags }
    ensures two_unspecified { OfTwoUnspecified }
    ensures three_flags { OfThreeFlags }
{}
