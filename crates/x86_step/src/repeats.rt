// The operands of MOVS and STOS. None where an address or a repeat count has an unspecified byte.
ghost use Rattle.std.specs.Prelude.{◌≡◌, [], ◌∷◌, Some};
ghost use Rattle.std.specs.Option.{option_map};
ghost use Rattle.x86_types.specs.Numbers.{size_of};
ghost use Rattle.x86_meaning.specs.TransferShapes as spec;
ghost use Rattle.x86_step.specs.Transferred.{transfer_of};

use crate::operand::Location;
use crate::operands::{Fields, Reads, Transfer, Writes};
use crate::shapes::{accumulator, in_register, operand};
use crate::stack::whole;
use x86_types::{Reg, Width};

/// Nothing is read or written.
#[inline]
pub(crate) fn no_transfer() -> Transfer
    ensures { transfer_of result ≡ spec.transfer_of [] [] }
{
    Transfer {
        reads: Reads::Zero,
        writes: Writes::Fields(Fields::Zero),
    }
}

// MOVS from an address to another.
fn movs_once(width: Width, from: u32, to: u32) -> Transfer
    ensures { Some (transfer_of result) ≡ spec.movs_transfer (size_of width) (Some from) (Some to) [] }
{
    let esi = whole(Reg::Esi);
    let edi = whole(Reg::Edi);
    Transfer {
        reads: Reads::Three(
            operand(width, Location::Memory(from)),
            in_register(esi),
            in_register(edi),
        ),
        writes: Writes::Then(operand(width, Location::Memory(to)), Fields::Two(esi, edi)),
    }
}

// MOVS with a repeat: ecx is read and written too.
fn movs_again(width: Width, from: u32, to: u32) -> Transfer
    ensures { Some (transfer_of result) ≡ spec.movs_transfer (size_of width) (Some from) (Some to) (spec.register 4 1 ∷ []) }
{
    let esi = whole(Reg::Esi);
    let edi = whole(Reg::Edi);
    let ecx = whole(Reg::Ecx);
    Transfer {
        reads: Reads::Four(
            operand(width, Location::Memory(from)),
            in_register(esi),
            in_register(edi),
            in_register(ecx),
        ),
        writes: Writes::Then(
            operand(width, Location::Memory(to)),
            Fields::Three(esi, edi, ecx),
        ),
    }
}

// STOS to an address.
fn stos_once(width: Width, to: u32) -> Transfer
    ensures { Some (transfer_of result) ≡ spec.stos_transfer width (Some to) [] }
{
    let edi = whole(Reg::Edi);
    Transfer {
        reads: Reads::Two(in_register(accumulator(width)), in_register(edi)),
        writes: Writes::Then(operand(width, Location::Memory(to)), Fields::One(edi)),
    }
}

// STOS with a repeat: ecx is read and written too.
fn stos_again(width: Width, to: u32) -> Transfer
    ensures { Some (transfer_of result) ≡ spec.stos_transfer width (Some to) (spec.register 4 1 ∷ []) }
{
    let edi = whole(Reg::Edi);
    let ecx = whole(Reg::Ecx);
    Transfer {
        reads: Reads::Three(
            in_register(accumulator(width)),
            in_register(edi),
            in_register(ecx),
        ),
        writes: Writes::Then(operand(width, Location::Memory(to)), Fields::Two(edi, ecx)),
    }
}

// With a repeat the count is looked at first, and where it is 0 nothing else is.
#[tactic(auto, using(crate::proofs::Reading::counted))]
fn if_counted(count: Option<u32>, again: Option<Transfer>) -> Option<Transfer>
    ensures { option_map transfer_of result ≡ spec.if_counted count (option_map transfer_of again) }
{
    match count {
        None => None,
        Some(count) => {
            if count == 0 {
                Some(no_transfer())
            } else {
                again
            }
        }
    }
}

fn movs_if(width: Width, from: Option<u32>, to: Option<u32>) -> Option<Transfer>
    ensures { option_map transfer_of result ≡ spec.movs_transfer (size_of width) from to [] }
{
    match (from, to) {
        (Some(from), Some(to)) => Some(movs_once(width, from, to)),
        _ => None,
    }
}

fn movs_again_if(width: Width, from: Option<u32>, to: Option<u32>) -> Option<Transfer>
    ensures { option_map transfer_of result ≡ spec.movs_transfer (size_of width) from to (spec.register 4 1 ∷ []) }
{
    match (from, to) {
        (Some(from), Some(to)) => Some(movs_again(width, from, to)),
        _ => None,
    }
}

fn stos_if(width: Width, to: Option<u32>) -> Option<Transfer>
    ensures { option_map transfer_of result ≡ spec.stos_transfer width to [] }
{
    match to {
        Some(to) => Some(stos_once(width, to)),
        None => None,
    }
}

fn stos_again_if(width: Width, to: Option<u32>) -> Option<Transfer>
    ensures { option_map transfer_of result ≡ spec.stos_transfer width to (spec.register 4 1 ∷ []) }
{
    match to {
        Some(to) => Some(stos_again(width, to)),
        None => None,
    }
}

/// MOVS, with its repeat count and its addresses.
pub(crate) fn movs(
    width: Width,
    repeat: bool,
    count: Option<u32>,
    from: Option<u32>,
    to: Option<u32>,
) -> Option<Transfer>
    ensures { option_map transfer_of result ≡ spec.string_transfer repeat count (spec.movs_transfer (size_of width) from to) }
{
    if repeat {
        if_counted(count, movs_again_if(width, from, to))
    } else {
        movs_if(width, from, to)
    }
}

/// STOS, with its repeat count and its address.
pub(crate) fn stos(
    width: Width,
    repeat: bool,
    count: Option<u32>,
    to: Option<u32>,
) -> Option<Transfer>
    ensures { option_map transfer_of result ≡ spec.string_transfer repeat count (spec.stos_transfer width to) }
{
    if repeat {
        if_counted(count, stos_again_if(width, to))
    } else {
        stos_if(width, to)
    }
}
