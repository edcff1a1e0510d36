// The cores of BSF and BSR.
ghost use Rattle.std.specs.Prelude.{◌≡◌, ◌++◌, OnOk};
ghost use Rattle.lift_values.specs.Scans.{all_searched, half_searched, is_beyond, scan_core};

use crate::terms::{mask, set_temp, temp, to_flag, to_temp, word};
use flag_ir::{Calc, Op};
use std::alloc::AllocError;
use x86_types::Width;

fn is_beyond(ops: &mut Vec<Op>, reverse: bool, ones: u32) -> Result<(), AllocError>
    ensures { OnOk result (ops.new.items ≡ ops.old.items ++ is_beyond reverse ones) }
{
    if reverse {
        ops.extend_from_slice(&[to_temp(7, Calc::Ltu, word(ones), temp(6))])
    } else {
        ops.extend_from_slice(&[
            to_temp(7, Calc::And, temp(6), word(ones)),
            to_temp(7, Calc::Eq, temp(7), word(0)),
        ])
    }
}

#[tactic(auto, using(std::proofs::Common::append_assoc))]
fn half_searched(ops: &mut Vec<Op>, reverse: bool, ones: u32, log: u32) -> Result<(), AllocError>
    ensures { OnOk result (ops.new.items ≡ ops.old.items ++ half_searched reverse ones log) }
{
    is_beyond(ops, reverse, ones)?;
    ops.extend_from_slice(&[
        to_temp(7, Calc::Shl, temp(7), word(log)),
        to_temp(6, Calc::Shr, temp(6), temp(7)),
        to_temp(4, Calc::Add, temp(4), temp(7)),
    ])
}

#[tactic(auto, using(std::proofs::Common::append_assoc, crate::proofs::Parts::search_parts))]
fn all_searched(ops: &mut Vec<Op>, reverse: bool) -> Result<(), AllocError>
    ensures { OnOk result (ops.new.items ≡ ops.old.items ++ all_searched reverse) }
{
    half_searched(ops, reverse, 0xFFFF, 4)?;
    half_searched(ops, reverse, 0xFF, 3)?;
    half_searched(ops, reverse, 0xF, 2)?;
    half_searched(ops, reverse, 3, 1)?;
    half_searched(ops, reverse, 1, 0)
}

/// Appends what BSF, or BSR where `reverse`, computes of temporary 1.
#[tactic(auto, using(std::proofs::Common::append_assoc, crate::proofs::Parts::scan_parts))]
pub fn scan_core(ops: &mut Vec<Op>, reverse: bool, width: Width) -> Result<(), AllocError>
    ensures { OnOk result (ops.new.items ≡ ops.old.items ++ scan_core reverse width) }
{
    ops.extend_from_slice(&[set_temp(6, temp(1)), set_temp(4, word(0))])?;
    all_searched(ops, reverse)?;
    ops.extend_from_slice(&[
        to_temp(4, Calc::And, temp(4), word(mask(width))),
        to_flag(2, Calc::Eq, temp(1), word(0)),
    ])
}
