// A worked unit.
ghost use Rattle.std.specs.Prelude.{◌≡◌, IfOk};
ghost use Rattle.flag_ir.specs.declared.operation.Op.TheVariants as ops;
ghost use Rattle.flag_ir.specs.declared.variable.Var.TheVariants as variable;
ghost use Rattle.flag_ir.specs.Form.{IsInForm, IsLoweredInForm};
ghost use Rattle.unit_machine.specs.Worked as worked;

use flag_ir::{Block, BlockList, Calc, Exit, Op, OpList, ProcList, Term, Unit, Var};
use std::alloc::{AllocError, Global};

fn set(to: u8, from: Term) -> Op
    ensures { result ≡ ops.Set (variable.Reg to) from }
{
    Op::Set {
        to: Var::Reg(to),
        from,
    }
}

fn first_block(alloc: Global, count: u32) -> Result<Block, AllocError>
    ensures { IfOk result (λ b. b ≡ worked.first_block count) }
{
    let ops = Vec::from_array(alloc, [set(1, Term::Word(count))])?;
    Ok(Block {
        number: 0,
        at: 0x1000,
        ops: OpList::new(ops),
        exit: Exit::Go(1),
    })
}

fn loop_block(alloc: Global) -> Result<Block, AllocError>
    ensures { IfOk result (λ b. b ≡ worked.loop_block) }
{
    let counter = Term::Var(Var::Reg(1));
    let ops = Vec::from_array(
        alloc,
        [Op::Calc {
            to: Var::Reg(1),
            calc: Calc::Sub,
            left: counter,
            right: Term::Word(1),
        }],
    )?;
    Ok(Block {
        number: 1,
        at: 0x1010,
        ops: OpList::new(ops),
        exit: Exit::Branch {
            test: counter,
            yes: 1,
            no: 2,
        },
    })
}

fn last_block(alloc: Global) -> Result<Block, AllocError>
    ensures { IfOk result (λ b. b ≡ worked.last_block) }
{
    let ops = Vec::from_array(
        alloc,
        [
            set(0, Term::Word(4)),
            set(3, Term::Word(1)),
            set(1, Term::Var(Var::Reg(4))),
            set(2, Term::Word(2)),
            Op::System,
            set(0, Term::Word(1)),
            set(3, Term::Word(7)),
            Op::System,
        ],
    )?;
    Ok(Block {
        number: 2,
        at: 0,
        ops: OpList::new(ops),
        exit: Exit::Stop,
    })
}

fn three_blocks(alloc: Global, count: u32) -> Result<Unit, AllocError>
    ensures { IfOk result (λ u. u ≡ worked.counting count) }
{
    let first = first_block(alloc, count)?;
    let second = loop_block(alloc)?;
    let third = last_block(alloc)?;
    let blocks = Vec::from_array(alloc, [first, second, third])?;
    Ok(Unit {
        lowered: false,
        whole: BlockList::new(blocks),
        procs: ProcList::new(Vec::new(alloc)),
    })
}

/// A unit that counts down from a number, from 0x1000 on, in turns of an operation and an exit at 0x1010; then it writes the two bytes at esp to
/// the descriptor 1, and exits with 7.
#[tactic(auto, using(crate::proofs::Counting::in_form, crate::proofs::Counting::needs_no_frame))]
pub fn counting_unit(alloc: Global, count: u32) -> Result<Unit, AllocError>
    ensures unit { IfOk result (λ u. u ≡ worked.counting count) }
    ensures form { IfOk result IsInForm }
    ensures frameless { IfOk result IsLoweredInForm }
{
    three_blocks(alloc, count)
}
