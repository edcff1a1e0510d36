// The unit of found code, and the numbers that are printed of it.
ghost use Rattle.plan_types.specs.FoundCode.{IsFoundCode};

use flag_ir::Unit;
use image::{Image, fits_wide_room};
use plan_types::Found;
use std::alloc::{AllocError, Global};
use std::io::{self, Write};
use whole_code::{above_law, whole};

/// The unit of the found code of an image.
pub fn unit_of(alloc: Global, image: &Image, found: &Found) -> Result<Unit, AllocError>
    requires { IsFoundCode image.now found.now }
{
    fits_wide_room(image);
    above_law();
    whole(alloc, found)
}

/// Prints how many blocks and operations a unit has.
pub fn print_unit<W: Write>(out: &mut W, unit: &Unit) -> io::Result<()> {
    let blocks = unit.whole.as_slice();
    let mut operations = 0usize;
    for block in blocks {
        operations = operations.saturating_add(block.ops.as_slice().len());
    }
    writeln!(out, "{} blocks", blocks.len())?;
    writeln!(out, "{operations} operations")
}
