// One operation or exit of a run.
ghost use Rattle.std.specs.Prelude.{◌≡◌, ◌≤◌, length, slice_get, None, Ok, Some};
ghost use Rattle.mem_pages.specs.Contents.{memory_in};
ghost use Rattle.sw_host.specs.Told.{Tells};
ghost use Rattle.unit_machine.specs.Beginning.{BeginsBlock};
ghost use Rattle.unit_machine.specs.Indexing.{IsIndexOf};
ghost use Rattle.unit_machine.specs.Moving.{StandsInBlock, IsRunnable, MakesMove, next_from, within_from};

use crate::UnitEnd;
use crate::index::BlockIndex;
use crate::leave::{Left, leave};
use crate::perform::perform;
use crate::values::Values;
use flag_ir::{Block, Unit};
use mem_pages::Pages;
use std::alloc::{AllocError, Global};
use sw_host::Host;

/// Where a run stands: in the turn of the block at an old address, before an operation of a block, or where that is the first before the
/// block.
#[derive(Drop)]
pub(crate) struct Position {
    pub values: Values,
    pub turn: u32,
    pub block: usize,
    pub op: usize,
}

// Begins a block before its first operation.
fn begin(block: &Block, at: &mut Position)
    ensures { BeginsBlock block.now at.old at.new }
{
    if at.op == 0 {
        at.values.begin();
        if block.at != 0 {
            at.turn = block.at;
        }
    }
}

// Performs an operation of a block that has begun, or leaves it.
fn act<H: Host>(
    alloc: Global,
    unit: &Unit,
    index: &BlockIndex,
    block: &Block,
    at: &mut Position,
    pages: &mut Pages,
    host: &mut H,
) -> Result<Option<UnitEnd>, AllocError>
    requires runnable { IsRunnable unit.now }
    requires indexed { IsIndexOf unit.now.whole index.now }
    requires here { slice_get unit.now.whole at.old.block ≡ Some block.now }
    requires within { at.old.op ≤ length block.now.ops }
    ensures moves { Tells (H.told host.old) (H.told host.new) (MakesMove (within_from unit.now block.now at.old (memory_in pages.old)) unit.now result at.new (memory_in pages.new)) }
    ensures placed { result ≡ Ok None → StandsInBlock unit.now at.new }
    ensures faults { H.faults host.old ≤ H.faults host.new }
{
    let ops = block.ops.as_slice();
    if at.op < ops.len() {
        match perform(alloc, &ops[at.op], &mut at.values, pages, host) {
            Err(error) => Err(error),
            Ok(None) => {
                at.op += 1;
                Ok(None)
            }
            Ok(Some(end)) => Ok(Some(UnitEnd::Run(end))),
        }
    } else {
        match leave(unit, index, at.turn, block.exit, &at.values, pages) {
            Left::To(place) => {
                at.block = place;
                at.op = 0;
                Ok(None)
            }
            Left::Ended(end) => Ok(Some(end)),
        }
    }
}

/// Makes a step. The answer is how the run ends, if it does.
pub(crate) fn step<H: Host>(
    alloc: Global,
    unit: &Unit,
    index: &BlockIndex,
    at: &mut Position,
    pages: &mut Pages,
    host: &mut H,
) -> Result<Option<UnitEnd>, AllocError>
    requires runnable { IsRunnable unit.now }
    requires indexed { IsIndexOf unit.now.whole index.now }
    requires placed { StandsInBlock unit.now at.old }
    ensures moves { Tells (H.told host.old) (H.told host.new) (MakesMove (next_from unit.now at.old (memory_in pages.old)) unit.now result at.new (memory_in pages.new)) }
    ensures placed { result ≡ Ok None → StandsInBlock unit.now at.new }
    ensures faults { H.faults host.old ≤ H.faults host.new }
{
    let block = &unit.whole.as_slice()[at.block];
    begin(block, at);
    act(alloc, unit, index, block, at, pages, host)
}
