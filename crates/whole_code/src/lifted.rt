// The list and the way of a place.
ghost use Rattle.std.specs.Prelude.{◌≡◌, IfOk};
ghost use Rattle.whole_code.specs.Building.{lifting_of_places};

use flag_ir::OpList;
use lift_core::{Way, exit_of, lift};
use plan_types::Place;
use std::alloc::{AllocError, Global};

// A list of operations, and how it goes on.
#[derive(Drop)]
pub(crate) struct Lifted {
    pub(crate) ops: OpList,
    pub(crate) way: Way,
}

pub(crate) fn lift_place(alloc: Global, place: &Place) -> Result<Lifted, AllocError>
    ensures { IfOk result (λ lifted. (lifted.ops ≡ lifting_of_places.list place.now) × (lifted.way ≡ lifting_of_places.way place.now)) }
{
    let list = lift(alloc, &place.instr, place.at, place.len)?;
    let ops = Vec::from_slice(alloc, list.as_slice())?;
    Ok(Lifted {
        ops: OpList::new(ops),
        way: exit_of(&place.instr, place.at, place.len),
    })
}
