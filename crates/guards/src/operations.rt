// The list that each operation becomes.
ghost use Rattle.std.specs.Prelude.{◌≡◌, ◌++◌, OnOk};
ghost use Rattle.guards.specs.Guarding.{guarded, guarded_load, guarded_ops, guarded_store, guarded_system, tested};

use crate::area::literal;
use flag_ir::{Calc, Op, Term, Var};
use std::alloc::AllocError;

const DIFFERENCE: Var = Var::Temp(1_399_997);

const IS_INSIDE: Var = Var::Temp(1_399_998);

const ADDRESS: Var = Var::Temp(1_399_999);

const BUFFER: Var = Var::Reg(1);

/// Puts 0 in place of an address in the private area.
fn tested(ops: &mut Vec<Op>, to: Var, at: Term) -> Result<(), AllocError>
    ensures { OnOk result (ops.new.items ≡ ops.old.items ++ tested to at) }
{
    ops.extend_from_slice(&[
        Op::Calc {
            to: DIFFERENCE,
            calc: Calc::Sub,
            left: at,
            right: Term::Word(0x6000_0000),
        },
        Op::Calc {
            to: IS_INSIDE,
            calc: Calc::Ltu,
            left: Term::Var(DIFFERENCE),
            right: Term::Word(0x1C00_0000),
        },
        Op::Pick {
            to,
            test: Term::Var(IS_INSIDE),
            yes: Term::Word(0),
            no: at,
        },
    ])
}

#[tactic(auto, using(std::proofs::Common::append_assoc))]
fn guarded_load(ops: &mut Vec<Op>, to: Var, size: u8, at: Term) -> Result<(), AllocError>
    ensures { OnOk result (ops.new.items ≡ ops.old.items ++ guarded_load to size at) }
{
    match at {
        Term::Word(address) => ops.extend_from_slice(&[Op::Load {
            to,
            size,
            at: literal(address),
        }]),
        Term::Var(_) => {
            tested(ops, ADDRESS, at)?;
            ops.extend_from_slice(&[Op::Load {
                to,
                size,
                at: Term::Var(ADDRESS),
            }])
        }
    }
}

#[tactic(auto, using(std::proofs::Common::append_assoc))]
fn guarded_store(ops: &mut Vec<Op>, size: u8, at: Term, from: Term) -> Result<(), AllocError>
    ensures { OnOk result (ops.new.items ≡ ops.old.items ++ guarded_store size at from) }
{
    match at {
        Term::Word(address) => ops.extend_from_slice(&[Op::Store {
            size,
            at: literal(address),
            from,
        }]),
        Term::Var(_) => {
            tested(ops, ADDRESS, at)?;
            ops.extend_from_slice(&[Op::Store {
                size,
                at: Term::Var(ADDRESS),
                from,
            }])
        }
    }
}

#[tactic(auto, using(std::proofs::Common::append_assoc))]
fn guarded_system(ops: &mut Vec<Op>) -> Result<(), AllocError>
    ensures { OnOk result (ops.new.items ≡ ops.old.items ++ guarded_system) }
{
    ops.extend_from_slice(&[Op::Set {
        to: ADDRESS,
        from: Term::Var(BUFFER),
    }])?;
    tested(ops, BUFFER, Term::Var(BUFFER))?;
    ops.extend_from_slice(&[
        Op::System,
        Op::Set {
            to: BUFFER,
            from: Term::Var(ADDRESS),
        },
    ])
}

fn guarded(ops: &mut Vec<Op>, op: Op) -> Result<(), AllocError>
    ensures { OnOk result (ops.new.items ≡ ops.old.items ++ guarded op) }
{
    match op {
        Op::Load { to, size, at } => guarded_load(ops, to, size, at),
        Op::Store { size, at, from } => guarded_store(ops, size, at, from),
        Op::System => guarded_system(ops),
        _ => ops.extend_from_slice(&[op]),
    }
}

/// Appends the lists of some operations, in order.
pub(crate) fn guarded_ops(ops: &mut Vec<Op>, old: &[Op]) -> Result<(), AllocError>
    ensures { OnOk result (ops.new.items ≡ ops.old.items ++ guarded_ops old.now) }
{
    for op in old {
        guarded(ops, *op)?;
    }
    Ok(())
}
