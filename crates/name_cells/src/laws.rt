// The laws of the placing.
ghost use Rattle.name_cells.specs.CellLaws.{CellLaws};
ghost use Rattle.name_cells.specs.PlacesCode.{PlacingLaw};

use field_places::field_place_laws;
use memory::memory_laws;
use named_code::{CodeMeaning, tested_laws};
use private_memory::private_access_laws;
use traces::{Family, meeting_laws, move_laws, run_laws, simulation_laws};
use x86_grammar::renaming_laws;
use x86_meaning::{access_laws, step_laws};

/// Names the pairs of positions of named code and of its placed code.
struct Pairs;

impl Family for Pairs {
    ghost use Rattle.std.specs.Prelude.{List};
    ghost use Rattle.named_code.specs.declared.named.VBlock.{VBlock};
    ghost use Rattle.name_cells.specs.CellPairs.{CellPair};

    ghost Index = { List VBlock };

    ghost At = { λ code. CellPair code };
}

/// Its clause is the laws of code whose names live in cells: an instruction has at most eight MOVs beside it; those before it bring
/// its names to registers, its own item does over these what the instruction does over the names, and those behind it bring them back.
pub fn cell_laws()
    ensures { CellLaws }
{
    field_place_laws();
    memory_laws();
    private_access_laws();
    access_laws();
    step_laws();
    run_laws::<CodeMeaning>();
    tested_laws();
}

/// Its clause is that code which can be placed is, with its names in cells, as is promised of it.
pub(crate) fn placing_law()
    ensures { PlacingLaw }
{
    field_place_laws();
    memory_laws();
    private_access_laws();
    access_laws();
    step_laws();
    run_laws::<CodeMeaning>();
    move_laws::<CodeMeaning>();
    meeting_laws();
    tested_laws();
    renaming_laws();
    simulation_laws::<CodeMeaning, CodeMeaning, Pairs>();
}
