// The unit of an image, and its run.
ghost use Rattle.std.specs.Prelude.{IfOk};
ghost use Rattle.flag_ir.specs.Form.{IsInForm};

use crate::starts::{ESP0, stack_of, start_pages};
use code_discovery::discover;
use flag_ir::Unit;
use image::{Image, fits_wide_room};
use std::alloc::Global;
use std::process::Abort;
use std::test::Fail;
use sw_host::MemoryHost;
use unit_form::needs_no_frame;
use unit_machine::{UnitEnd, run_unit};
use whole_code::{above_law, whole};

/// More operations and exits than a run of a worked program takes.
const BUDGET: u64 = 100_000;

fn unit_of(alloc: Global, image: &Image) -> Result<Unit, Fail>
    ensures { IfOk result IsInForm }
{
    fits_wide_room(image);
    above_law();
    let found = discover(alloc, image)?;
    let unit = whole(alloc, &found)?;
    Ok(unit)
}

/// How the unit of the image ends from the start of a run from this name alone.
pub fn end_of(
    rt: &impl Abort,
    alloc: Global,
    image: &Image,
    name: [u8; 2],
    host: &mut MemoryHost,
) -> Result<UnitEnd, Fail> {
    let unit = unit_of(alloc, image)?;
    assert!(rt; needs_no_frame(&unit));
    let stack = stack_of(name);
    let mut pages = start_pages(alloc, image, &stack)?;
    let end = run_unit(alloc, &unit, &mut pages, image.entry, ESP0, host, BUDGET)?;
    Ok(end)
}
