// What no clause says: that the code is made with ample memory.
ghost use Rattle.std.specs.Prelude.{◌≡◌, IfOk};
ghost use Rattle.instr_choose.specs.SmallUnit.{small_unit};

use crate::choose;
use flag_ir::{Block, BlockList, Calc, Exit, Op, OpList, ProcList, Term, Unit, Var};
use named_code::Slot;
use std::alloc::{AllocError, Global};
use std::test::Fail;
use x86_types::{AluOp, Instr, Reg, Rm, Src, Width};

// Register 3 is the sum of flag 0 and 5, and the run stops.
fn small_unit(alloc: Global) -> Result<Unit, AllocError>
    ensures { IfOk result (λ unit. unit ≡ small_unit) }
{
    let mut ops = Vec::new(alloc);
    ops.push(Op::Calc {
        to: Var::Reg(3),
        calc: Calc::Add,
        left: Term::Var(Var::Flag(0)),
        right: Term::Word(5),
    })?;
    let mut blocks = Vec::new(alloc);
    blocks.push(Block {
        number: 0,
        at: 4096,
        ops: OpList::new(ops),
        exit: Exit::Stop,
    })?;
    Ok(Unit {
        lowered: true,
        whole: BlockList::new(blocks),
        procs: ProcList::new(Vec::new(alloc)),
    })
}

// mov name 3, name 8; add name 3, 5; nop
#[test]
#[tactic(auto, using(crate::proofs::SmallUnits::small_in_form, crate::proofs::SmallUnits::small_is_well_shaped, crate::proofs::SmallUnits::small_has_names, crate::proofs::SmallUnits::small_is_lowered))]
fn chooses_a_sum(rt: HostRuntime) -> Result<(), Fail> {
    let unit = small_unit(rt.alloc())?;
    let code = choose(rt.alloc(), &unit)?;
    let blocks = code.as_slice();
    assert_eq!(rt; blocks.len(), 1);
    assert_eq!(rt; blocks[0].at, 4096);
    let instrs = blocks[0].code.as_slice();
    assert_eq!(rt; instrs.len(), 3);
    let add = Instr::Alu {
        op: AluOp::Add,
        width: Width::Four,
        to: Rm::Reg(Reg::Eax),
        from: Src::Imm(5),
    };
    assert_eq!(rt; instrs[1].instr, add);
    assert_eq!(rt; instrs[1].slots.as_slice(), [Slot::Name(3)].as_slice());
    assert_eq!(rt; instrs[2].instr, Instr::Nop);
    Ok(())
}
