// The worked steps of PUSH, POP and LEAVE.
ghost use Rattle.x86_meaning.specs.StackRows.{LeaveRows, PopRows, PushRows};

/// Does nothing: its clauses are worked steps of PUSH, POP and LEAVE, computed.
#[tactic(auto, using(crate::proofs::StackRows::push_rows, crate::proofs::StackRows::pop_rows, crate::proofs::StackRows::leave_rows))]
pub fn worked_stack_steps()
    ensures push { PushRows }
    ensures pop { PopRows }
    ensures leave { LeaveRows }
{}
