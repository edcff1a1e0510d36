// One operation.
ghost use Rattle.std.specs.Prelude.{◌≤◌};
ghost use Rattle.mem_pages.specs.Contents.{memory_in};
ghost use Rattle.sw_host.specs.Told.{Tells};
ghost use Rattle.flag_ir.specs.Form.{IsFrameless, IsOp};
ghost use Rattle.unit_machine.specs.Performing.{PerformsOp};

use crate::call::call;
use crate::compute::{compute, is_system};
use crate::values::Values;
use flag_ir::Op;
use mem_pages::{Pages, RunEnd};
use std::alloc::{AllocError, Global};
use sw_host::Host;

/// Performs an operation that needs no frame. The answer is how the run ends, if it does.
pub(crate) fn perform<H: Host>(
    alloc: Global,
    op: &Op,
    values: &mut Values,
    pages: &mut Pages,
    host: &mut H,
) -> Result<Option<RunEnd>, AllocError>
    requires form { IsOp 0 op.now }
    requires frameless { IsFrameless op.now }
    ensures performs { Tells (H.told host.old) (H.told host.new) (PerformsOp op.now result values.old (memory_in pages.old) values.new (memory_in pages.new)) }
    ensures faults { H.faults host.old ≤ H.faults host.new }
{
    if is_system(op) {
        call(alloc, values, pages, host)
    } else {
        compute(op, values, pages)
    }
}
