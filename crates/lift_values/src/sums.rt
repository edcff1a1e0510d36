// The cores of sums and differences.
ghost use Rattle.std.specs.Prelude.{◌≡◌, ◌++◌, OnOk};
ghost use Rattle.lift_values.specs.Sums.{adc_core, add_core, below, below_with_carry, dec_core, difference_flags, inc_core, neg_core, sbb_core, sub_core, sum_flags, total, total_with_carry};

use crate::flags::result_flags;
use crate::terms::{flag, mask, pick_flag, temp, to_flag, to_temp, top, word};
use flag_ir::{Calc, Op, Term};
use std::alloc::AllocError;
use x86_types::Width;

fn total(
    ops: &mut Vec<Op>,
    calc: Calc,
    width: Width,
    left: Term,
    right: Term,
) -> Result<(), AllocError>
    ensures { OnOk result (ops.new.items ≡ ops.old.items ++ total calc width left right) }
{
    ops.extend_from_slice(&[
        to_temp(4, calc, left, right),
        to_temp(4, Calc::And, temp(4), word(mask(width))),
    ])
}

fn total_with_carry(
    ops: &mut Vec<Op>,
    calc: Calc,
    width: Width,
    left: Term,
    right: Term,
) -> Result<(), AllocError>
    ensures { OnOk result (ops.new.items ≡ ops.old.items ++ total_with_carry calc width left right) }
{
    ops.extend_from_slice(&[
        to_temp(4, calc, left, right),
        to_temp(4, calc, temp(4), flag(0)),
        to_temp(4, Calc::And, temp(4), word(mask(width))),
    ])
}

fn below(ops: &mut Vec<Op>, left: Term, right: Term) -> Result<(), AllocError>
    ensures { OnOk result (ops.new.items ≡ ops.old.items ++ below left right) }
{
    ops.extend_from_slice(&[to_flag(0, Calc::Ltu, left, right)])
}

fn below_with_carry(ops: &mut Vec<Op>, left: Term, right: Term) -> Result<(), AllocError>
    ensures { OnOk result (ops.new.items ≡ ops.old.items ++ below_with_carry left right) }
{
    ops.extend_from_slice(&[
        to_temp(6, Calc::Ltu, left, right),
        to_temp(7, Calc::Ltu, right, left),
        to_temp(7, Calc::Xor, temp(7), word(1)),
        pick_flag(0, flag(0), temp(7), temp(6)),
    ])
}

/// The flags of a sum but CF.
#[tactic(auto, using(std::proofs::Common::append_assoc))]
fn sum_flags(ops: &mut Vec<Op>, width: Width, left: Term, right: Term) -> Result<(), AllocError>
    ensures { OnOk result (ops.new.items ≡ ops.old.items ++ sum_flags width left right) }
{
    result_flags(ops, width)?;
    ops.extend_from_slice(&[
        to_temp(6, Calc::Shr, left, word(top(width))),
        to_temp(7, Calc::Shr, right, word(top(width))),
        to_temp(6, Calc::Xor, temp(6), flag(3)),
        to_temp(7, Calc::Xor, temp(7), flag(3)),
        to_flag(4, Calc::And, temp(6), temp(7)),
    ])
}

/// The flags of a difference but CF.
#[tactic(auto, using(std::proofs::Common::append_assoc))]
fn difference_flags(
    ops: &mut Vec<Op>,
    width: Width,
    left: Term,
    right: Term,
) -> Result<(), AllocError>
    ensures { OnOk result (ops.new.items ≡ ops.old.items ++ difference_flags width left right) }
{
    result_flags(ops, width)?;
    ops.extend_from_slice(&[
        to_temp(6, Calc::Shr, left, word(top(width))),
        to_temp(7, Calc::Shr, right, word(top(width))),
        to_temp(7, Calc::Xor, temp(6), temp(7)),
        to_temp(6, Calc::Xor, temp(6), flag(3)),
        to_flag(4, Calc::And, temp(6), temp(7)),
    ])
}

#[tactic(auto, using(std::proofs::Common::append_assoc))]
pub(crate) fn add_core(ops: &mut Vec<Op>, width: Width) -> Result<(), AllocError>
    ensures { OnOk result (ops.new.items ≡ ops.old.items ++ add_core width) }
{
    total(ops, Calc::Add, width, temp(1), temp(2))?;
    below(ops, temp(4), temp(1))?;
    sum_flags(ops, width, temp(1), temp(2))
}

#[tactic(auto, using(std::proofs::Common::append_assoc, crate::proofs::Parts::adc_parts))]
pub(crate) fn adc_core(ops: &mut Vec<Op>, width: Width) -> Result<(), AllocError>
    ensures { OnOk result (ops.new.items ≡ ops.old.items ++ adc_core width) }
{
    total_with_carry(ops, Calc::Add, width, temp(1), temp(2))?;
    below_with_carry(ops, temp(4), temp(1))?;
    sum_flags(ops, width, temp(1), temp(2))
}

#[tactic(auto, using(std::proofs::Common::append_assoc))]
pub(crate) fn sub_core(ops: &mut Vec<Op>, width: Width) -> Result<(), AllocError>
    ensures { OnOk result (ops.new.items ≡ ops.old.items ++ sub_core width) }
{
    total(ops, Calc::Sub, width, temp(1), temp(2))?;
    below(ops, temp(1), temp(2))?;
    difference_flags(ops, width, temp(1), temp(2))
}

#[tactic(auto, using(std::proofs::Common::append_assoc, crate::proofs::Parts::sbb_parts))]
pub(crate) fn sbb_core(ops: &mut Vec<Op>, width: Width) -> Result<(), AllocError>
    ensures { OnOk result (ops.new.items ≡ ops.old.items ++ sbb_core width) }
{
    total_with_carry(ops, Calc::Sub, width, temp(1), temp(2))?;
    below_with_carry(ops, temp(1), temp(2))?;
    difference_flags(ops, width, temp(1), temp(2))
}

/// Appends what INC computes of temporary 1.
#[tactic(auto, using(std::proofs::Common::append_assoc))]
pub fn inc_core(ops: &mut Vec<Op>, width: Width) -> Result<(), AllocError>
    ensures { OnOk result (ops.new.items ≡ ops.old.items ++ inc_core width) }
{
    total(ops, Calc::Add, width, temp(1), word(1))?;
    sum_flags(ops, width, temp(1), word(1))
}

/// Appends what DEC computes of temporary 1.
#[tactic(auto, using(std::proofs::Common::append_assoc))]
pub fn dec_core(ops: &mut Vec<Op>, width: Width) -> Result<(), AllocError>
    ensures { OnOk result (ops.new.items ≡ ops.old.items ++ dec_core width) }
{
    total(ops, Calc::Sub, width, temp(1), word(1))?;
    difference_flags(ops, width, temp(1), word(1))
}

/// Appends what NEG computes of temporary 1.
#[tactic(auto, using(std::proofs::Common::append_assoc))]
pub fn neg_core(ops: &mut Vec<Op>, width: Width) -> Result<(), AllocError>
    ensures { OnOk result (ops.new.items ≡ ops.old.items ++ neg_core width) }
{
    total(ops, Calc::Sub, width, word(0), temp(1))?;
    below(ops, word(0), temp(1))?;
    difference_flags(ops, width, word(0), temp(1))
}
