// The pass that changes nothing: a unit is copied, list by list.
ghost use Rattle.std.specs.Prelude.{◌≡◌, IfOk};
ghost use Rattle.flag_ir.specs.Keeps.{IsSound, Passes};

use crate::soundness::pass_laws;
use crate::{Block, BlockList, LocalList, LocalSlot, Op, OpList, Pass, Proc, ProcList, Unit};
use std::alloc::{AllocError, Global};

/// Makes a unit again, each of its lists a new one.
#[derive(Clone, Copy, Debug)]
pub struct CopyUnit;

fn copy_ops(alloc: Global, ops: &[Op]) -> Result<OpList, AllocError>
    ensures { IfOk result (λ copy. copy ≡ ops.now) }
{
    let mut copy = Vec::new(alloc);
    for op in ops {
        copy.push(*op)?;
    }
    Ok(OpList::new(copy))
}

fn copy_block(alloc: Global, block: &Block) -> Result<Block, AllocError>
    ensures { IfOk result (λ copy. copy ≡ block.now) }
{
    let ops = copy_ops(alloc, block.ops.as_slice())?;
    Ok(Block {
        number: block.number,
        at: block.at,
        ops,
        exit: block.exit,
    })
}

fn copy_blocks(alloc: Global, blocks: &[Block]) -> Result<BlockList, AllocError>
    ensures { IfOk result (λ copy. copy ≡ blocks.now) }
{
    let mut copy = Vec::new(alloc);
    for block in blocks {
        copy.push(copy_block(alloc, block)?)?;
    }
    Ok(BlockList::new(copy))
}

fn copy_locals(alloc: Global, slots: &[LocalSlot]) -> Result<LocalList, AllocError>
    ensures { IfOk result (λ copy. copy ≡ slots.now) }
{
    let mut copy = Vec::new(alloc);
    for slot in slots {
        copy.push(*slot)?;
    }
    Ok(LocalList::new(copy))
}

fn copy_proc(alloc: Global, proc: &Proc) -> Result<Proc, AllocError>
    ensures { IfOk result (λ copy. copy ≡ proc.now) }
{
    let locals = copy_locals(alloc, proc.locals.as_slice())?;
    let blocks = copy_blocks(alloc, proc.blocks.as_slice())?;
    Ok(Proc {
        entry: proc.entry,
        kind: proc.kind,
        depth: proc.depth,
        args: proc.args,
        locals,
        blocks,
    })
}

fn copy_procs(alloc: Global, procs: &[Proc]) -> Result<ProcList, AllocError>
    ensures { IfOk result (λ copy. copy ≡ procs.now) }
{
    let mut copy = Vec::new(alloc);
    for proc in procs {
        copy.push(copy_proc(alloc, proc)?)?;
    }
    Ok(ProcList::new(copy))
}

/// A unit like another, in lists of its own.
pub(crate) fn copy_unit(alloc: Global, unit: &Unit) -> Result<Unit, AllocError>
    ensures { IfOk result (λ copy. copy ≡ unit.now) }
{
    let whole = copy_blocks(alloc, unit.whole.as_slice())?;
    let procs = copy_procs(alloc, unit.procs.as_slice())?;
    Ok(Unit {
        lowered: unit.lowered,
        whole,
        procs,
    })
}

impl Pass for CopyUnit {
    ghost premise = { λ p u. Unit {0} };

    ghost gives = { λ p u v. v ≡ u };

    fn apply(&self, alloc: Global, unit: Unit) -> Result<Unit, AllocError> {
        pass_laws();
        copy_unit(alloc, &unit)
    }
}
