// The cores of moves, MOVSX, CBW, CWD and BSWAP.
ghost use Rattle.std.specs.Prelude.{◌≡◌, ◌++◌, OnOk};
ghost use Rattle.lift_values.specs.Extensions.{above, byte_joined, byte_moved, cut_core, extend_core, move_core, sign_fill, spread_core, swap_core};

use crate::terms::{mask, set_temp, size_of, temp, to_temp, top, top_mask, word};
use flag_ir::{Calc, Op};
use std::alloc::AllocError;
use x86_types::Width;

/// Appends a move of temporary 1.
pub fn move_core(ops: &mut Vec<Op>) -> Result<(), AllocError>
    ensures { OnOk result (ops.new.items ≡ ops.old.items ++ move_core) }
{
    ops.extend_from_slice(&[set_temp(4, temp(1))])
}

fn sign_fill(ops: &mut Vec<Op>, width: Width, ones: u32) -> Result<(), AllocError>
    ensures { OnOk result (ops.new.items ≡ ops.old.items ++ sign_fill width ones) }
{
    ops.extend_from_slice(&[
        to_temp(6, Calc::And, temp(1), word(top_mask(width))),
        to_temp(6, Calc::Shr, temp(6), word(top(width))),
        to_temp(6, Calc::Sub, word(0), temp(6)),
        to_temp(6, Calc::And, temp(6), word(ones)),
    ])
}

/// The bits of a wide width above those of another.
fn above(wide: Width, width: Width) -> u32
    ensures { result ≡ above wide width }
{
    match (wide, width) {
        (Width::Two, Width::One) => 0xFF00,
        (Width::Four, Width::One) => 0xFFFFFF00,
        (Width::Four, Width::Two) => 0xFFFF0000,
        _ => 0,
    }
}

fn cut_core(ops: &mut Vec<Op>, wide: Width, width: Width) -> Result<(), AllocError>
    ensures { OnOk result (ops.new.items ≡ ops.old.items ++ cut_core wide width) }
{
    if size_of(wide) < size_of(width) {
        ops.extend_from_slice(&[to_temp(4, Calc::And, temp(4), word(mask(wide)))])
    } else {
        Ok(())
    }
}

/// Appends an extension by the sign of temporary 1 to a wide width.
#[tactic(auto, using(std::proofs::Common::append_assoc, crate::proofs::Parts::extend_parts))]
pub fn extend_core(ops: &mut Vec<Op>, wide: Width, width: Width) -> Result<(), AllocError>
    ensures { OnOk result (ops.new.items ≡ ops.old.items ++ extend_core wide width) }
{
    sign_fill(ops, width, above(wide, width))?;
    ops.extend_from_slice(&[to_temp(4, Calc::Or, temp(1), temp(6))])?;
    cut_core(ops, wide, width)
}

/// Appends copies of the sign of temporary 1.
#[tactic(auto, using(std::proofs::Common::append_assoc))]
pub fn spread_core(ops: &mut Vec<Op>, width: Width) -> Result<(), AllocError>
    ensures { OnOk result (ops.new.items ≡ ops.old.items ++ spread_core width) }
{
    sign_fill(ops, width, mask(width))?;
    ops.extend_from_slice(&[set_temp(4, temp(6))])
}

fn byte_moved(
    ops: &mut Vec<Op>,
    shift: Calc,
    bits: u32,
    from: u32,
    to: u32,
) -> Result<(), AllocError>
    ensures { OnOk result (ops.new.items ≡ ops.old.items ++ byte_moved shift bits from to) }
{
    ops.extend_from_slice(&[
        to_temp(6, Calc::And, temp(1), word(from)),
        to_temp(6, shift, temp(6), word(bits)),
        to_temp(6, Calc::And, temp(6), word(to)),
    ])
}

#[tactic(auto, using(std::proofs::Common::append_assoc))]
fn byte_joined(
    ops: &mut Vec<Op>,
    shift: Calc,
    bits: u32,
    from: u32,
    to: u32,
) -> Result<(), AllocError>
    ensures { OnOk result (ops.new.items ≡ ops.old.items ++ byte_joined shift bits from to) }
{
    byte_moved(ops, shift, bits, from, to)?;
    ops.extend_from_slice(&[to_temp(4, Calc::Or, temp(4), temp(6))])
}

/// Appends the bytes of temporary 1, the highest first.
#[tactic(auto, using(std::proofs::Common::append_assoc, crate::proofs::Parts::swap_parts))]
pub fn swap_core(ops: &mut Vec<Op>) -> Result<(), AllocError>
    ensures { OnOk result (ops.new.items ≡ ops.old.items ++ swap_core) }
{
    ops.extend_from_slice(&[set_temp(4, word(0))])?;
    byte_joined(ops, Calc::Shl, 24, 0xFF, 0xFF000000)?;
    byte_joined(ops, Calc::Shl, 8, 0xFF00, 0xFF0000)?;
    byte_joined(ops, Calc::Shr, 8, 0xFF0000, 0xFF00)?;
    byte_joined(ops, Calc::Shr, 24, 0xFF000000, 0xFF)
}
