// What no clause says: that the calls that allocate succeed with ample memory.
ghost use Rattle.std.specs.Prelude.{◌≡◌, []};

use crate::copies::copy_unit;
use crate::{
    Block, BlockList, CopyUnit, Exit, FrameKind, LocalList, LocalSlot, Op, OpList, Pass, Proc,
    ProcList, Term, Unit, Var, then,
};
use std::alloc::{AllocError, Global};
use std::test::Fail;

fn empty_unit(alloc: Global) -> Unit
    ensures whole { result.whole ≡ [] }
    ensures procs { result.procs ≡ [] }
{
    Unit {
        lowered: false,
        whole: BlockList::new(Vec::new(alloc)),
        procs: ProcList::new(Vec::new(alloc)),
    }
}

fn two_ops(alloc: Global) -> Result<OpList, AllocError> {
    let mut ops = Vec::new(alloc);
    ops.push(Op::Set {
        to: Var::Reg(0),
        from: Term::Word(7),
    })?;
    ops.push(Op::Store {
        size: 4,
        at: Term::Var(Var::Reg(4)),
        from: Term::Word(7),
    })?;
    Ok(OpList::new(ops))
}

fn one_block(alloc: Global, at: u32, exit: Exit) -> Result<BlockList, AllocError> {
    let mut blocks = Vec::new(alloc);
    blocks.push(Block {
        number: 0,
        at,
        ops: two_ops(alloc)?,
        exit,
    })?;
    Ok(BlockList::new(blocks))
}

fn one_proc(alloc: Global) -> Result<ProcList, AllocError> {
    let mut slots = Vec::new(alloc);
    slots.push(LocalSlot {
        offset: -4,
        size: 4,
    })?;
    let mut procs = Vec::new(alloc);
    procs.push(Proc {
        entry: 0x3000,
        kind: FrameKind::Shared,
        depth: 8,
        args: 1,
        locals: LocalList::new(slots),
        blocks: one_block(alloc, 0x3000, Exit::Return)?,
    })?;
    Ok(ProcList::new(procs))
}

#[test]
fn copies_units(rt: HostRuntime) -> Result<(), Fail> {
    let unit = Unit {
        lowered: true,
        whole: one_block(rt.alloc(), 0x1000, Exit::Go(0))?,
        procs: one_proc(rt.alloc())?,
    };
    let copy = copy_unit(rt.alloc(), &unit)?;
    assert!(rt; copy.lowered);
    assert_eq!(rt; copy.whole.as_slice().len(), 1);
    for block in copy.whole.as_slice() {
        assert_eq!(rt; block.at, 0x1000);
        assert_eq!(rt; block.ops.as_slice().len(), 2);
    }
    assert_eq!(rt; copy.procs.as_slice().len(), 1);
    for proc in copy.procs.as_slice() {
        assert_eq!(rt; proc.kind, FrameKind::Shared);
        assert_eq!(rt; proc.locals.as_slice().len(), 1);
        assert_eq!(rt; proc.blocks.as_slice().len(), 1);
    }
    Ok(())
}

#[test]
#[tactic(auto, using(crate::proofs::Empty::empty_is_sound))]
fn passes_units(rt: HostRuntime) -> Result<(), Fail> {
    let pass = then(CopyUnit, CopyUnit);
    let unit = empty_unit(rt.alloc());
    let copy = pass.apply(rt.alloc(), unit)?;
    assert_eq!(rt; copy.whole.as_slice().len(), 0);
    Ok(())
}
