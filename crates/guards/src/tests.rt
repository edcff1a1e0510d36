// What no clause says: that the calls that allocate succeed with ample memory.
use crate::units::guarded_blocks;
use flag_ir::{Block, Exit, Op, OpList, Term, Var};
use std::alloc::{AllocError, Global};
use std::test::Fail;

fn one_of_each(alloc: Global) -> Result<OpList, AllocError> {
    let mut ops = Vec::new(alloc);
    ops.push(Op::Load {
        to: Var::Reg(0),
        size: 4,
        at: Term::Var(Var::Reg(1)),
    })?;
    ops.push(Op::Store {
        size: 4,
        at: Term::Word(0x6000_0000),
        from: Term::Word(7),
    })?;
    ops.push(Op::System)?;
    ops.push(Op::Forget { to: Var::Flag(0) })?;
    Ok(OpList::new(ops))
}

#[test]
fn guards_each_operation(rt: HostRuntime) -> Result<(), Fail> {
    let mut blocks = Vec::new(rt.alloc());
    blocks.push(Block {
        number: 0,
        at: 0x1000,
        ops: one_of_each(rt.alloc())?,
        exit: Exit::Stop,
    })?;
    let new = guarded_blocks(rt.alloc(), false, &blocks)?;
    assert_eq!(rt; new.as_slice().len(), 1);
    for block in new.as_slice() {
        assert_eq!(rt; block.at, 0x1000);
        assert_eq!(rt; block.ops.as_slice().len(), 1 + 4 + 1 + 6 + 1);
    }
    Ok(())
}
