//! Flag-explicit code: operations on words with explicit flags, blocks, procedures with frames, and what they mean.
#![tactic(auto)]

mod block;
mod calculation_rows;
mod chain;
mod compose;
mod copies;
mod frame_rows;
mod laws;
mod operation;
mod operation_rows;
mod pass;
mod procedure;
mod run_rows;
mod soundness;
#[cfg(test)]
mod tests;
mod unit;
mod variable;

pub use block::{Block, BlockList, Exit};
pub use calculation_rows::worked_calculations;
pub use chain::Then;
pub use compose::then;
pub use copies::CopyUnit;
pub use frame_rows::{worked_accesses, worked_exits};
pub use laws::{UnitMeaning, read_laws, unit_access_laws, unit_laws};
pub use operation::{Calc, Op, OpList};
pub use operation_rows::{worked_calls, worked_operations};
pub use pass::Pass;
pub use procedure::{FrameKind, LocalList, LocalSlot, Proc, ProcList};
pub use run_rows::{worked_returns, worked_runs};
pub use soundness::pass_laws;
pub use unit::Unit;
pub use variable::{Term, Var};
