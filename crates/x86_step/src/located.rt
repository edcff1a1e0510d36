// The shapes of operands with a field, where each address is known.
ghost use Rattle.std.specs.Prelude.{◌≡◌, [], ◌∷◌};
ghost use Rattle.std.specs.Option.{option_map};
ghost use Rattle.x86_types.specs.Numbers.{size_of};
ghost use Rattle.x86_meaning.specs.TransferShapes as spec;
ghost use Rattle.x86_step.specs.Transferred.{as_location, as_place, transfer_of};

use crate::operand::{Location, Place};
use crate::operands::Transfer;
use crate::shapes;
use x86_types::{AluOp, Count, Width};

/// Both operands are read, and the first is computed from them, unless they are compared.
pub(crate) fn alu(
    op: AluOp,
    width: Width,
    to: Option<Location>,
    from: Option<Location>,
) -> Option<Transfer>
    ensures { option_map transfer_of result ≡ spec.by_two (spec.alu_transfer op (size_of width)) (option_map as_location to) (option_map as_location from) }
{
    match (to, from) {
        (Some(to), Some(from)) => Some(shapes::alu_transfer(op, width, to, from)),
        _ => None,
    }
}

/// Both operands are read.
pub(crate) fn compare(
    width: Width,
    to: Option<Location>,
    from: Option<Location>,
) -> Option<Transfer>
    ensures { option_map transfer_of result ≡ spec.by_two (spec.compare_transfer (size_of width)) (option_map as_location to) (option_map as_location from) }
{
    match (to, from) {
        (Some(to), Some(from)) => Some(shapes::compare_transfer(width, to, from)),
        _ => None,
    }
}

/// The second operand is moved to the first.
pub(crate) fn moved(width: Width, to: Option<Location>, from: Option<Location>) -> Option<Transfer>
    ensures { option_map transfer_of result ≡ spec.by_two (spec.move_transfer (size_of width) (size_of width)) (option_map as_location to) (option_map as_location from) }
{
    match (to, from) {
        (Some(to), Some(from)) => Some(shapes::move_transfer(width, width, to, from)),
        _ => None,
    }
}

/// The first operand is computed from both and a count.
pub(crate) fn double_shift(
    count: Count,
    to: Option<Location>,
    from: Option<Location>,
) -> Option<Transfer>
    ensures { option_map transfer_of result ≡ spec.by_two (spec.double_shift_transfer count) (option_map as_location to) (option_map as_location from) }
{
    match (to, from) {
        (Some(to), Some(from)) => Some(shapes::double_shift_transfer(count, to, from)),
        _ => None,
    }
}

/// An operand is computed from itself.
pub(crate) fn update(width: Width, to: Option<Location>) -> Option<Transfer>
    ensures { option_map transfer_of result ≡ spec.by_one (spec.update_transfer (size_of width)) (option_map as_location to) }
{
    match to {
        Some(to) => Some(shapes::update_transfer(width, to)),
        None => None,
    }
}

/// The accumulators are computed from the lower one and an operand.
pub(crate) fn multiply(width: Width, from: Option<Location>) -> Option<Transfer>
    ensures { option_map transfer_of result ≡ spec.by_one (spec.multiply_transfer width) (option_map as_location from) }
{
    match from {
        Some(from) => Some(shapes::multiply_transfer(width, from)),
        None => None,
    }
}

/// The accumulators are computed from both and an operand.
pub(crate) fn divide(width: Width, from: Option<Location>) -> Option<Transfer>
    ensures { option_map transfer_of result ≡ spec.by_one (spec.divide_transfer width) (option_map as_location from) }
{
    match from {
        Some(from) => Some(shapes::divide_transfer(width, from)),
        None => None,
    }
}

/// The first operand is computed from both.
pub(crate) fn combine(width: Width, to: Location, from: Option<Location>) -> Option<Transfer>
    ensures { option_map transfer_of result ≡ spec.by_one (spec.combine_transfer (size_of width) (as_location to)) (option_map as_location from) }
{
    match from {
        Some(from) => Some(shapes::combine_transfer(width, to, from)),
        None => None,
    }
}

/// The first operand is computed from the second and a constant.
pub(crate) fn multiply_by(
    width: Width,
    by: u32,
    to: Location,
    from: Option<Location>,
) -> Option<Transfer>
    ensures { option_map transfer_of result ≡ spec.by_one (spec.multiply_by_transfer (size_of width) by (as_location to)) (option_map as_location from) }
{
    match from {
        Some(from) => Some(shapes::multiply_by_transfer(width, by, to, from)),
        None => None,
    }
}

/// An operand is computed from itself and a count.
pub(crate) fn shift(width: Width, count: Count, to: Option<Location>) -> Option<Transfer>
    ensures { option_map transfer_of result ≡ spec.by_one (spec.shift_transfer (size_of width) count) (option_map as_location to) }
{
    match to {
        Some(to) => Some(shapes::shift_transfer(width, count, to)),
        None => None,
    }
}

/// Both operands are read and written.
pub(crate) fn exchange(width: Width, right: Place, left: Option<Location>) -> Option<Transfer>
    ensures { option_map transfer_of result ≡ spec.by_one (spec.exchange_transfer (size_of width) (as_place right)) (option_map as_location left) }
{
    match left {
        Some(left) => Some(shapes::exchange_transfer(width, right, left)),
        None => None,
    }
}

/// An operand is moved to one of another width.
pub(crate) fn moved_to(
    wide: Width,
    width: Width,
    to: Location,
    from: Option<Location>,
) -> Option<Transfer>
    ensures { option_map transfer_of result ≡ spec.by_one (spec.move_transfer (size_of wide) (size_of width) (as_location to)) (option_map as_location from) }
{
    match from {
        Some(from) => Some(shapes::move_transfer(wide, width, to, from)),
        None => None,
    }
}

/// One byte is written.
pub(crate) fn set(to: Option<Location>) -> Option<Transfer>
    ensures { option_map transfer_of result ≡ spec.by_one (spec.set_transfer 1) (option_map as_location to) }
{
    match to {
        Some(to) => Some(shapes::set_transfer(to)),
        None => None,
    }
}

/// A word is read.
pub(crate) fn read(from: Option<Location>) -> Option<Transfer>
    ensures { option_map transfer_of result ≡ spec.by_one (spec.read_transfer 4) (option_map as_location from) }
{
    match from {
        Some(from) => Some(shapes::read_transfer(from)),
        None => None,
    }
}
