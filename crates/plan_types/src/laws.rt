// What holds of found code by its definition.
ghost use Rattle.plan_types.specs.FoundLaws.{FoundLaws};
ghost use Rattle.plan_types.specs.LeadingRows.{Leaders, Procedures, Successors};
ghost use Rattle.plan_types.specs.RunLaws.{RunLaws};
ghost use Rattle.plan_types.specs.StraightRows.{StraightRuns};
ghost use Rattle.plan_types.specs.TableRows.{Bounds, Comparisons, ConstantWords, HowMany, TableJumps, TablesOfRuns};

use x86_code::code_laws;
use x86_grammar::front_laws;

/// Does nothing: its clause is the laws of found code.
pub fn found_laws()
    ensures { FoundLaws }
{
    front_laws();
    code_laws();
}

/// Does nothing: its clause is the laws of straight runs and of their tables.
pub fn run_laws()
    ensures { RunLaws }
{}

/// Does nothing: its clauses are worked rows, what the definitions come to where code is written out.
#[tactic(auto, using(crate::proofs::Rows::straight_runs, crate::proofs::Rows::constant_words, crate::proofs::Rows::table_jumps, crate::proofs::Rows::comparisons, crate::proofs::Rows::bounds, crate::proofs::Rows::how_many, crate::proofs::Rows::tables_of_runs, crate::proofs::Rows::leaders, crate::proofs::Rows::procedures, crate::proofs::Rows::successors))]
pub fn worked_rows()
    ensures runs { StraightRuns }
    ensures words { ConstantWords }
    ensures jumps { TableJumps }
    ensures comparisons { Comparisons }
    ensures bounds { Bounds }
    ensures many { HowMany }
    ensures tables { TablesOfRuns }
    ensures leaders { Leaders }
    ensures procedures { Procedures }
    ensures successors { Successors }
{}
