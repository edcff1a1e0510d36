// What the definitions of the top call come to.
ghost use Rattle.sw_top.specs.Laws.{RewriteIsSpelled, RunIsSpelled, StackIsStart};
ghost use Rattle.sw_top.specs.Rows.{CommandRows, SizeRows, StatusRows, LineRows, MapRow, OrderRows};
ghost use Rattle.sw_top.specs.RunRows.{RunCommandRows, StackRows, RunEndRows};

use sw_host::host_laws;

/// Does nothing: its clauses say which words spell a rewriting, and which a run.
pub fn command_laws()
    ensures rewrite { RewriteIsSpelled }
    ensures run { RunIsSpelled }
{}

/// Does nothing: its clause says that a run can begin with the stacks of words.
pub fn stack_laws()
    ensures { StackIsStart }
{}

/// Does nothing: its clauses are rows of the definitions, worked by hand.
pub fn worked_rows()
    ensures commands { CommandRows }
    ensures sizes { SizeRows }
    ensures statuses { StatusRows }
    ensures lines { LineRows }
    ensures map { MapRow }
    ensures order { OrderRows }
{
    host_laws();
}

/// Does nothing: its clauses are rows of the definitions of runs, worked by hand.
#[tactic(auto, using(crate::proofs::RunRowLemmas::run_command_rows, crate::proofs::RunRowLemmas::stack_rows, crate::proofs::RunRowLemmas::run_end_rows))]
pub fn worked_runs()
    ensures commands { RunCommandRows }
    ensures stacks { StackRows }
    ensures ends { RunEndRows }
{}
