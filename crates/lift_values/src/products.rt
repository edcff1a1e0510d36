// The cores of MUL and IMUL.
ghost use Rattle.std.specs.Prelude.{◌≡◌, ◌++◌, OnOk};
ghost use Rattle.lift_values.specs.Products.{imul_core, mul_core, narrow_product, halves_flags, product_halves, signed_narrow_product, wide_product, widened};

use crate::terms::{flag, mask, set_flag, temp, to_flag, to_temp, top, width_bits, word};
use flag_ir::{Calc, Op, Term};
use std::alloc::AllocError;
use x86_types::Width;

fn widened(ops: &mut Vec<Op>, to: u32, from: u32, bits: u32) -> Result<(), AllocError>
    ensures { OnOk result (ops.new.items ≡ ops.old.items ++ widened to from bits) }
{
    ops.extend_from_slice(&[
        to_temp(to, Calc::Shl, temp(from), word(bits)),
        to_temp(to, Calc::Sar, temp(to), word(bits)),
    ])
}

fn narrow_product(
    ops: &mut Vec<Op>,
    width: Width,
    left: Term,
    right: Term,
) -> Result<(), AllocError>
    ensures { OnOk result (ops.new.items ≡ ops.old.items ++ narrow_product width left right) }
{
    ops.extend_from_slice(&[
        to_temp(4, Calc::Mul, left, right),
        to_temp(5, Calc::Shr, temp(4), word(width_bits(width))),
        to_temp(4, Calc::And, temp(4), word(mask(width))),
        to_temp(5, Calc::And, temp(5), word(mask(width))),
    ])
}

fn wide_product(ops: &mut Vec<Op>, upper: Calc) -> Result<(), AllocError>
    ensures { OnOk result (ops.new.items ≡ ops.old.items ++ wide_product upper) }
{
    ops.extend_from_slice(&[
        to_temp(4, Calc::Mul, temp(1), temp(2)),
        to_temp(5, upper, temp(1), temp(2)),
    ])
}

#[tactic(auto, using(std::proofs::Common::append_assoc, crate::proofs::Parts::signed_parts))]
fn signed_narrow_product(ops: &mut Vec<Op>, width: Width, bits: u32) -> Result<(), AllocError>
    ensures { OnOk result (ops.new.items ≡ ops.old.items ++ signed_narrow_product width bits) }
{
    widened(ops, 6, 1, bits)?;
    widened(ops, 7, 2, bits)?;
    narrow_product(ops, width, temp(6), temp(7))
}

fn product_halves(ops: &mut Vec<Op>, signed: bool, width: Width) -> Result<(), AllocError>
    ensures { OnOk result (ops.new.items ≡ ops.old.items ++ product_halves signed width) }
{
    match (signed, width) {
        (false, Width::One) => narrow_product(ops, Width::One, temp(1), temp(2)),
        (false, Width::Two) => narrow_product(ops, Width::Two, temp(1), temp(2)),
        (false, Width::Four) => wide_product(ops, Calc::Mulhu),
        (true, Width::One) => signed_narrow_product(ops, Width::One, 24),
        (true, Width::Two) => signed_narrow_product(ops, Width::Two, 16),
        (true, Width::Four) => wide_product(ops, Calc::Mulhs),
    }
}

fn halves_flags(ops: &mut Vec<Op>, signed: bool, width: Width) -> Result<(), AllocError>
    ensures { OnOk result (ops.new.items ≡ ops.old.items ++ halves_flags signed width) }
{
    if signed {
        ops.extend_from_slice(&[
            to_temp(6, Calc::Shr, temp(4), word(top(width))),
            to_temp(6, Calc::Sub, word(0), temp(6)),
            to_temp(6, Calc::And, temp(6), word(mask(width))),
            to_temp(6, Calc::Eq, temp(5), temp(6)),
            to_flag(0, Calc::Xor, temp(6), word(1)),
            set_flag(4, flag(0)),
        ])
    } else {
        ops.extend_from_slice(&[
            to_flag(0, Calc::Ltu, word(0), temp(5)),
            set_flag(4, flag(0)),
        ])
    }
}

/// Appends what MUL, or IMUL of one operand, computes of temporaries 1 and 2.
#[tactic(auto, using(std::proofs::Common::append_assoc))]
pub fn mul_core(ops: &mut Vec<Op>, signed: bool, width: Width) -> Result<(), AllocError>
    ensures { OnOk result (ops.new.items ≡ ops.old.items ++ mul_core signed width) }
{
    product_halves(ops, signed, width)?;
    halves_flags(ops, signed, width)
}

/// Appends what IMUL of two operands computes of temporaries 1 and 2.
pub fn imul_core(ops: &mut Vec<Op>, width: Width) -> Result<(), AllocError>
    ensures { OnOk result (ops.new.items ≡ ops.old.items ++ imul_core width) }
{
    mul_core(ops, true, width)
}
