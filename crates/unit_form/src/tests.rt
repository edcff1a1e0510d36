// What no clause says: what the tests say of small units.
use crate::{is_in_form, needs_no_frame};
use flag_ir::{Block, BlockList, Exit, OpList, ProcList, Term, Unit, Var};
use std::alloc::{AllocError, Global};
use std::test::Fail;

fn one_block(alloc: Global, number: u32, exit: Exit) -> Result<Unit, AllocError> {
    let mut blocks = Vec::new(alloc);
    blocks.push(Block {
        number,
        at: 0x1000,
        ops: OpList::new(Vec::new(alloc)),
        exit,
    })?;
    Ok(Unit {
        lowered: false,
        whole: BlockList::new(blocks),
        procs: ProcList::new(Vec::new(alloc)),
    })
}

#[test]
fn judges_units(rt: HostRuntime) -> Result<(), Fail> {
    let local = Term::Var(Var::Local(0));
    for (number, exit, form, frameless) in [
        (0, Exit::Go(0), true, true),
        (0, Exit::Go(1), false, true),
        (1, Exit::Go(0), false, true),
        (0, Exit::Return, true, false),
        (0, Exit::Jump { to: local }, false, true),
    ] {
        let unit = one_block(rt.alloc(), number, exit)?;
        assert_eq!(rt; is_in_form(&unit), form);
        assert_eq!(rt; needs_no_frame(&unit), frameless);
    }
    Ok(())
}
