// The laws of the lists that shift.
ghost use Rattle.lift_values.specs.ShiftCoreRows.{WorkedShiftCores};
ghost use Rattle.lift_values.specs.ShiftLaws.{ShiftCoreLaws};

/// Does nothing: its clause is the laws of `shift_core` and `double_shift_core`. Each computes what its instruction computes, from every
/// operand, every count and all flags; it names no local, needs no frame and has at most 32 operations.
#[tactic(auto, using(crate::proofs::ShiftLaws::shift_core_laws))]
pub fn shift_core_laws()
    ensures { ShiftCoreLaws }
{}

/// Does nothing: its clause is worked rows of the lists that shift.
#[tactic(auto, using(crate::proofs::ShiftCoreRows::worked_shift_cores))]
pub fn worked_shift_cores()
    ensures { WorkedShiftCores }
{}
