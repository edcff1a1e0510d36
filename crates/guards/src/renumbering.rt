// The temporaries of each block numbered anew.
ghost use Rattle.std.specs.Prelude.{◌≡◌, ◌≤◌, length, map, nat_eq, All, IfOk, OnOk};
ghost use Rattle.indexmap.specs.IndexSet.{insert_all};
ghost use Rattle.guards.specs.Renumbering.{new_number, renumbered_block, renumbered_exit, renumbered_op, renumbered_term, renumbered_var, temp_of, temps_written, written_temps, WritesFewTemps};

use flag_ir::{Block, Exit, Op, OpList, Term, Var};
use indexmap::IndexSet;
use std::alloc::{AllocError, Global};

fn add_written(written: &mut IndexSet<u32>, to: Var) -> Result<(), AllocError>
    ensures { OnOk result (written.new.keys ≡ insert_all nat_eq written.old.keys (temp_of to)) }
{
    if let Var::Temp(number) = to {
        written.insert(number)?;
    }
    Ok(())
}

fn add_temps(written: &mut IndexSet<u32>, op: Op) -> Result<(), AllocError>
    ensures { OnOk result (written.new.keys ≡ insert_all nat_eq written.old.keys (temps_written op)) }
{
    match op {
        Op::Set { to, .. }
        | Op::Calc { to, .. }
        | Op::Forget { to }
        | Op::Pick { to, .. }
        | Op::Load { to, .. }
        | Op::NearLoad { to, .. }
        | Op::Get { to, .. } => add_written(written, to),
        Op::Divide {
            quotient,
            remainder,
            ..
        } => {
            add_written(written, quotient)?;
            add_written(written, remainder)
        }
        Op::Need { .. }
        | Op::Store { .. }
        | Op::NearStore { .. }
        | Op::Put { .. }
        | Op::System
        | Op::NearSystem => Ok(()),
    }
}

/// The temporaries that some operations write, in the order of their first writing.
#[tactic(auto, using(crate::proofs::Numbering::written_more))]
fn written_temps(alloc: Global, ops: &[Op]) -> Result<IndexSet<u32>, AllocError>
    ensures { IfOk result (λ written. written.keys ≡ written_temps ops.now) }
{
    let mut written = IndexSet::new(alloc);
    for op in ops {
        add_temps(&mut written, *op)?;
    }
    Ok(written)
}

#[tactic(auto, using(crate::proofs::Numbering::unwritten))]
fn new_number(written: &IndexSet<u32>, number: u32) -> u32
    requires few { length written.now.keys ≤ 524288 }
    ensures { result ≡ new_number written.now.keys number }
{
    match written.get_index_of(&number) {
        Some(index) => index as u32,
        None => written.len() as u32,
    }
}

fn renumbered_var(written: &IndexSet<u32>, var: Var) -> Var
    requires few { length written.now.keys ≤ 524288 }
    ensures { result ≡ renumbered_var (new_number written.now.keys) var }
{
    match var {
        Var::Temp(number) => Var::Temp(new_number(written, number)),
        _ => var,
    }
}

fn renumbered_term(written: &IndexSet<u32>, term: Term) -> Term
    requires few { length written.now.keys ≤ 524288 }
    ensures { result ≡ renumbered_term (new_number written.now.keys) term }
{
    match term {
        Term::Var(var) => Term::Var(renumbered_var(written, var)),
        Term::Word(_) => term,
    }
}

fn renumbered_exit(written: &IndexSet<u32>, exit: Exit) -> Exit
    requires few { length written.now.keys ≤ 524288 }
    ensures { result ≡ renumbered_exit (new_number written.now.keys) exit }
{
    match exit {
        Exit::Branch { test, yes, no } => Exit::Branch {
            test: renumbered_term(written, test),
            yes,
            no,
        },
        Exit::Jump { to } => Exit::Jump {
            to: renumbered_term(written, to),
        },
        _ => exit,
    }
}

fn renumbered_op(written: &IndexSet<u32>, op: Op) -> Op
    requires few { length written.now.keys ≤ 524288 }
    ensures { result ≡ renumbered_op (new_number written.now.keys) op }
{
    match op {
        Op::Set { to, from } => Op::Set {
            to: renumbered_var(written, to),
            from: renumbered_term(written, from),
        },
        Op::Calc {
            to,
            calc,
            left,
            right,
        } => Op::Calc {
            to: renumbered_var(written, to),
            calc,
            left: renumbered_term(written, left),
            right: renumbered_term(written, right),
        },
        Op::Forget { to } => Op::Forget {
            to: renumbered_var(written, to),
        },
        Op::Pick { to, test, yes, no } => Op::Pick {
            to: renumbered_var(written, to),
            test: renumbered_term(written, test),
            yes: renumbered_term(written, yes),
            no: renumbered_term(written, no),
        },
        Op::Need { from } => Op::Need {
            from: renumbered_term(written, from),
        },
        Op::Divide {
            quotient,
            remainder,
            high,
            low,
            by,
            size,
            signed,
        } => Op::Divide {
            quotient: renumbered_var(written, quotient),
            remainder: renumbered_var(written, remainder),
            high: renumbered_term(written, high),
            low: renumbered_term(written, low),
            by: renumbered_term(written, by),
            size,
            signed,
        },
        Op::Load { to, size, at } => Op::Load {
            to: renumbered_var(written, to),
            size,
            at: renumbered_term(written, at),
        },
        Op::Store { size, at, from } => Op::Store {
            size,
            at: renumbered_term(written, at),
            from: renumbered_term(written, from),
        },
        Op::NearLoad { to, size, at } => Op::NearLoad {
            to: renumbered_var(written, to),
            size,
            at: renumbered_term(written, at),
        },
        Op::NearStore { size, at, from } => Op::NearStore {
            size,
            at: renumbered_term(written, at),
            from: renumbered_term(written, from),
        },
        Op::Get { to, size, offset } => Op::Get {
            to: renumbered_var(written, to),
            size,
            offset,
        },
        Op::Put { size, offset, from } => Op::Put {
            size,
            offset,
            from: renumbered_term(written, from),
        },
        Op::System | Op::NearSystem => op,
    }
}

fn renumbered_ops(alloc: Global, written: &IndexSet<u32>, old: &[Op]) -> Result<OpList, AllocError>
    requires few { length written.now.keys ≤ 524288 }
    ensures { IfOk result (λ new. new ≡ map (renumbered_op (new_number written.now.keys)) old.now) }
{
    let mut ops = Vec::new(alloc);
    for op in old {
        ops.push(renumbered_op(written, *op))?;
    }
    Ok(OpList::new(ops))
}

fn renumbered_block(alloc: Global, block: &Block) -> Result<Block, AllocError>
    requires few { WritesFewTemps block.now }
    ensures { IfOk result (λ new. new ≡ renumbered_block block.now) }
{
    let written = written_temps(alloc, block.ops.as_slice())?;
    let ops = renumbered_ops(alloc, &written, block.ops.as_slice())?;
    Ok(Block {
        number: block.number,
        at: block.at,
        ops,
        exit: renumbered_exit(&written, block.exit),
    })
}

/// The blocks, each with its temporaries numbered anew: those that it writes by the order of their first writing, and all others by
/// the number behind the last.
pub(crate) fn renumbered_blocks(alloc: Global, blocks: &[Block]) -> Result<Vec<Block>, AllocError>
    requires few { All WritesFewTemps blocks.now }
    ensures { IfOk result (λ new. new.items ≡ map renumbered_block blocks.now) }
{
    let mut new = Vec::new(alloc);
    for block in blocks {
        new.push(renumbered_block(alloc, block)?)?;
    }
    Ok(new)
}
