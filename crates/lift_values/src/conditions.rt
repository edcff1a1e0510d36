// The conditions, and the cores of SETcc and CMOV.
ghost use Rattle.std.specs.Prelude.{◌≡◌, ◌++◌, OnOk};
ghost use Rattle.x86_types.specs.declared.operation.Cond.TheVariants as cond;
ghost use Rattle.lift_values.specs.Conditions.{below_or_equal, cmov_core, condition_ops, contrary, is_clear, is_set, less, less_or_equal, set_core};

use crate::terms::{flag, mask, pick_temp, set_temp, temp, to_temp, word};
use flag_ir::{Calc, Op};
use std::alloc::AllocError;
use x86_types::{Cond, Width};

fn is_set(ops: &mut Vec<Op>, number: u8) -> Result<(), AllocError>
    ensures { OnOk result (ops.new.items ≡ ops.old.items ++ is_set number) }
{
    ops.extend_from_slice(&[set_temp(4, flag(number))])
}

fn is_clear(ops: &mut Vec<Op>, number: u8) -> Result<(), AllocError>
    ensures { OnOk result (ops.new.items ≡ ops.old.items ++ is_clear number) }
{
    ops.extend_from_slice(&[to_temp(4, Calc::Xor, flag(number), word(1))])
}

fn contrary(ops: &mut Vec<Op>) -> Result<(), AllocError>
    ensures { OnOk result (ops.new.items ≡ ops.old.items ++ contrary) }
{
    ops.extend_from_slice(&[to_temp(4, Calc::Xor, temp(4), word(1))])
}

fn below_or_equal(ops: &mut Vec<Op>) -> Result<(), AllocError>
    ensures { OnOk result (ops.new.items ≡ ops.old.items ++ below_or_equal) }
{
    ops.extend_from_slice(&[to_temp(4, Calc::Or, flag(0), flag(2))])
}

fn less(ops: &mut Vec<Op>) -> Result<(), AllocError>
    ensures { OnOk result (ops.new.items ≡ ops.old.items ++ less) }
{
    ops.extend_from_slice(&[to_temp(4, Calc::Xor, flag(3), flag(4))])
}

fn less_or_equal(ops: &mut Vec<Op>) -> Result<(), AllocError>
    ensures { OnOk result (ops.new.items ≡ ops.old.items ++ less_or_equal) }
{
    ops.extend_from_slice(&[
        to_temp(4, Calc::Xor, flag(3), flag(4)),
        to_temp(4, Calc::Or, flag(2), temp(4)),
    ])
}

#[tactic(auto, using(std::proofs::Common::append_assoc))]
fn above(ops: &mut Vec<Op>) -> Result<(), AllocError>
    ensures { OnOk result (ops.new.items ≡ ops.old.items ++ condition_ops cond.A) }
{
    below_or_equal(ops)?;
    contrary(ops)
}

#[tactic(auto, using(std::proofs::Common::append_assoc))]
fn greater_or_equal(ops: &mut Vec<Op>) -> Result<(), AllocError>
    ensures { OnOk result (ops.new.items ≡ ops.old.items ++ condition_ops cond.Ge) }
{
    less(ops)?;
    contrary(ops)
}

#[tactic(auto, using(std::proofs::Common::append_assoc))]
fn greater(ops: &mut Vec<Op>) -> Result<(), AllocError>
    ensures { OnOk result (ops.new.items ≡ ops.old.items ++ condition_ops cond.G) }
{
    less_or_equal(ops)?;
    contrary(ops)
}

/// Appends a test of the flags, whose result, 1 or 0, stands in temporary 4.
pub fn condition_ops(ops: &mut Vec<Op>, condition: Cond) -> Result<(), AllocError>
    ensures { OnOk result (ops.new.items ≡ ops.old.items ++ condition_ops condition) }
{
    match condition {
        Cond::O => is_set(ops, 4),
        Cond::No => is_clear(ops, 4),
        Cond::B => is_set(ops, 0),
        Cond::Ae => is_clear(ops, 0),
        Cond::E => is_set(ops, 2),
        Cond::Ne => is_clear(ops, 2),
        Cond::Be => below_or_equal(ops),
        Cond::A => above(ops),
        Cond::S => is_set(ops, 3),
        Cond::Ns => is_clear(ops, 3),
        Cond::P => is_set(ops, 1),
        Cond::Np => is_clear(ops, 1),
        Cond::L => less(ops),
        Cond::Ge => greater_or_equal(ops),
        Cond::Le => less_or_equal(ops),
        Cond::G => greater(ops),
    }
}

/// Appends what SETcc computes.
#[tactic(auto, using(std::proofs::Common::append_assoc))]
pub fn set_core(ops: &mut Vec<Op>, condition: Cond) -> Result<(), AllocError>
    ensures { OnOk result (ops.new.items ≡ ops.old.items ++ set_core condition) }
{
    condition_ops(ops, condition)?;
    ops.extend_from_slice(&[to_temp(4, Calc::And, temp(4), word(0xFF))])
}

/// Appends what CMOV computes of temporary 1, the target's value, and temporary 2.
#[tactic(auto, using(std::proofs::Common::append_assoc))]
pub fn cmov_core(ops: &mut Vec<Op>, condition: Cond, width: Width) -> Result<(), AllocError>
    ensures { OnOk result (ops.new.items ≡ ops.old.items ++ cmov_core condition width) }
{
    condition_ops(ops, condition)?;
    ops.extend_from_slice(&[
        pick_temp(4, temp(4), temp(2), temp(1)),
        to_temp(4, Calc::And, temp(4), word(mask(width))),
    ])
}
