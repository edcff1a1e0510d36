ghost use Rattle.std.specs.Prelude.{ℕ};
ghost use Rattle.traces.specs.Trace.{Exited, Grows};
ghost use Rattle.trace_checks.specs.Played.{counted_down};
ghost use Rattle.trace_checks.specs.AgreementChecks.{AllowsAnythingAfterUnspecified, AllowsOutsideAtGuard, AllowsSlowExit, RefusesDroppedBeforeUnspecified, RefusesDroppedEvent, RefusesEarlyEnd, RefusesEndlessRun, RefusesExitAtGuard, RefusesExtraEvent, RefusesFewerSteps, RefusesOtherEvent, RefusesOtherStatus, RefusesSlowExit, RefusesStepLeftOut};
ghost use Rattle.trace_checks.specs.EndingChecks.{CountingEnds, ReportingEnds};
ghost use Rattle.trace_checks.specs.RowChecks.{ChargesEachStep, KeepsUnreadInput};
ghost use Rattle.trace_checks.specs.TurnChecks.{AllowsLongTurn, AllowsSplitEvents, AllowsStepLeftOut, RefusesEarlyReport, RefusesLateGuard, RefusesLostMoment, RefusesMovedEvent, RefusesOtherAddress};
ghost use Rattle.trace_checks.specs.WeightChecks.{AllowsWeightWithConstant, RefusesWeightWithoutConstant, WalkPaced};

use crate::machines::{EachCount, EachLightWalk, Numbers, Scripts, WalkStates};
use traces::{
    agreement_laws, invariant_laws, move_laws, run_laws, simulation_laws, trace_laws, turn_laws,
};

/// Does nothing: its clauses say what agreement within `4096 * n + 256` steps refuses and lets pass.
pub fn agreement_checks()
    ensures refuses_dropped_event { RefusesDroppedEvent }
    ensures refuses_other_event { RefusesOtherEvent }
    ensures refuses_early_end { RefusesEarlyEnd }
    ensures refuses_endless_run { RefusesEndlessRun }
    ensures refuses_other_status { RefusesOtherStatus }
    ensures refuses_extra_event { RefusesExtraEvent }
    ensures refuses_dropped_before_unspecified { RefusesDroppedBeforeUnspecified }
    ensures refuses_exit_at_guard { RefusesExitAtGuard }
    ensures refuses_slow_exit { RefusesSlowExit }
    ensures refuses_fewer_steps { RefusesFewerSteps }
    ensures allows_anything_after_unspecified { AllowsAnythingAfterUnspecified }
    ensures allows_outside_at_guard { AllowsOutsideAtGuard }
    ensures allows_slow_exit { AllowsSlowExit }
    ensures refuses_step_left_out { RefusesStepLeftOut }
{}

/// Calls the laws of runs alone: its clauses say what the relations by turns refuse and let pass.
pub fn turn_checks()
    ensures refuses_moved_event { RefusesMovedEvent }
    ensures refuses_other_address { RefusesOtherAddress }
    ensures refuses_lost_moment { RefusesLostMoment }
    ensures refuses_late_guard { RefusesLateGuard }
    ensures refuses_early_report { RefusesEarlyReport }
    ensures allows_split_events { AllowsSplitEvents }
    ensures allows_long_turn { AllowsLongTurn }
    ensures allows_step_left_out { AllowsStepLeftOut }
{
    agreement_laws();
    turn_laws();
    run_laws::<Scripts>();
    run_laws::<Numbers>();
    move_laws::<Numbers>();
    simulation_laws::<Numbers, Numbers, EachCount>();
}

/// Calls the laws of traces alone: its clauses say that reports and counts are endings.
pub fn ending_checks()
    ensures reporting_ends { ReportingEnds }
    ensures counting_ends { CountingEnds }
{
    trace_laws();
}

/// Calls the laws of runs alone: its clause is one of them, of the machine that counts down.
pub fn count_grows()
    ensures grows { (n : ℕ) → Grows (counted_down n (Exited 0)) }
{
    traces::run_laws::<Numbers>();
}

/// Calls the laws of invariants alone: its clauses say that a turn may go over several blocks, and that steps before the first turn
/// need a constant.
pub fn weight_checks()
    ensures walk_paced { WalkPaced }
    ensures refuses_weight_without_constant { RefusesWeightWithoutConstant }
    ensures allows_weight_with_constant { AllowsWeightWithConstant }
{
    invariant_laws::<WalkStates, EachLightWalk>();
}

/// Does nothing: its clauses are values of functions of traces, worked by hand.
pub fn row_checks()
    ensures keeps_unread_input { KeepsUnreadInput }
    ensures charges_each_step { ChargesEachStep }
{}
