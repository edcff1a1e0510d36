// The found code of an image.
ghost use Rattle.plan_types.specs.Ascending.{Ascends};

use crate::{AddressList, PlaceList, TableList};
use std::marker::Model;

/// Found code: its instructions, its procedures and its tables. Each list is strictly ascending, by the address of the instruction,
/// of the procedure, and of the table's jump. Instructions may overlap.
#[derive(Debug, Drop)]
pub struct Found {
    pub code: PlaceList,
    pub procs: AddressList,
    pub tables: TableList,
}

impl Model for Found {
    ghost use Rattle.plan_types.specs.Contents.{FoundContents};

    ghost Value = { FoundContents };

    ghost use Rattle.plan_types.specs.Ascending.{Ascends};

    ghost view = { λ f. record { code = f.code; procs = f.procs; tables = f.tables } };

    ghost invariant = { λ f. Ascends f.code f.procs f.tables };
}

/// Does nothing: its clause says that the lists of found code ascend, whoever made them.
pub fn ascends(found: &Found)
    ensures { Ascends found.now.code found.now.procs found.now.tables }
{
    let _ = &found.code;
}
