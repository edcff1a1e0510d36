// From found code to placed code.
ghost use Rattle.std.specs.Prelude.{IfOk};
ghost use Rattle.plan_types.specs.FoundCode.{IsFoundCode};
ghost use Rattle.recompile.specs.Recompiling.{IsPlacedCodeOf};

use code_bounds::turn_bounds;
use guards::lower;
use image::{Image, fits_wide_room};
use instr_choose::choose;
use name_cells::in_cells;
use named_code::Placed;
use plan_types::Found;
use std::alloc::{AllocError, Global};
use whole_code::{above_law, whole};

/// The placed code of the one-stack unit of found code, with its names in cells.
pub(crate) fn placed_code(alloc: Global, image: &Image, found: &Found) -> Result<Placed, AllocError>
    requires { IsFoundCode image.now found.now }
    ensures { IfOk result (IsPlacedCodeOf image.now found.now) }
{
    above_law();
    turn_bounds();
    fits_wide_room(image);
    let unit = whole(alloc, found)?;
    let lowered = lower(alloc, unit)?;
    let code = choose(alloc, &lowered)?;
    in_cells(alloc, &code)
}
