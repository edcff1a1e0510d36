// Whether a unit is in form.
ghost use Rattle.std.specs.Prelude.{◌≡◌, ◌↔◌, true};
ghost use Rattle.flag_ir.specs.Form.{IsInForm, IsLoweredInForm};
ghost use Rattle.unit_form.specs.Fits as spec;

use crate::blocks::{are_frameless, part_fits, procs_fit};
use flag_ir::Unit;

fn lowered_fits(unit: &Unit) -> bool
    ensures { result ≡ spec.lowered_fits unit.now }
{
    unit.procs.as_slice().is_empty() && are_frameless(unit.whole.as_slice())
}

fn form_fits(unit: &Unit) -> bool
    ensures { result ≡ spec.form_fits unit.now }
{
    let procs = unit.procs.as_slice();
    part_fits(0, procs, unit.whole.as_slice())
        && (procs_fit(procs) && (!unit.lowered || lowered_fits(unit)))
}

/// Whether a unit has no procedures, and no operation or exit that needs an open frame.
pub fn needs_no_frame(unit: &Unit) -> bool
    ensures { (result ≡ true) ↔ IsLoweredInForm unit.now }
{
    lowered_fits(unit)
}

/// Whether a unit is in form: its blocks are numbered in order, what its operations and exits name is there, and where it is lowered it
/// needs no frame.
pub fn is_in_form(unit: &Unit) -> bool
    ensures { (result ≡ true) ↔ IsInForm unit.now }
{
    form_fits(unit)
}
