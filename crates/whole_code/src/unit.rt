// The unit of a whole program.
ghost use Rattle.std.specs.Prelude.{IfOk};
ghost use Rattle.flag_ir.specs.Form.{IsInForm};
ghost use Rattle.flag_ir.specs.Shape.{IsWellShaped};
ghost use Rattle.flag_ir.specs.Costs.{one_each, BoundsTurns};
ghost use Rattle.lift_core.specs.Whole.{IsWholeBy};
ghost use Rattle.whole_code.specs.Building.{lifting_of_places};
ghost use Rattle.whole_code.specs.Above.{NoneAtZero};
ghost use Rattle.whole_code.specs.OneStack.{IsOneStackOf};
ghost use Rattle.whole_code.specs.Weight.{HasShortLists, rest_of, whole_weight};

use crate::build::all_blocks;
use crate::one_stack_law;
use flag_ir::{BlockList, ProcList, Unit};
use lift_core::lifting_laws;
use plan_types::{Found, ascends, found_laws};
use std::alloc::{AllocError, Global};

/// The unit of found code: a block for each instruction, with its operations and its way, and further blocks for the list of each repeat
/// and for each address to which an instruction branches where none is found. It makes at most four blocks for an instruction, and
/// searches the instructions twice for each at most. Err where memory runs out, or where there would be more than 2^32 blocks.
pub fn whole(alloc: Global, found: &Found) -> Result<Unit, AllocError>
    requires { NoneAtZero found.now }
    ensures whole { IfOk result (λ unit. IsWholeBy lifting_of_places unit found.now) }
    ensures form { IfOk result IsInForm }
    ensures shape { IfOk result IsWellShaped }
    ensures one_stack { IfOk result (λ unit. IsOneStackOf found.now unit) }
    ensures short { IfOk result HasShortLists }
    ensures weight { IfOk result (λ unit. BoundsTurns one_each whole_weight (rest_of unit) unit) }
{
    lifting_laws();
    found_laws();
    one_stack_law();
    ascends(found);
    let blocks = all_blocks(alloc, found)?;
    Ok(Unit {
        lowered: false,
        whole: BlockList::new(blocks),
        procs: ProcList::new(Vec::new(alloc)),
    })
}
