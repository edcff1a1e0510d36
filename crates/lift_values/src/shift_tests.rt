// What no clause says: that the lists are made where there is memory.
use crate::{double_shift_core, shift_core};
use flag_ir::Op;
use std::test::Fail;
use x86_types::{ShiftOp, Width};

#[test]
fn appends_shifts(rt: HostRuntime) -> Result<(), Fail> {
    let mut ops: Vec<Op> = Vec::new(rt.alloc());
    for op in [
        ShiftOp::Rol,
        ShiftOp::Ror,
        ShiftOp::Shl,
        ShiftOp::Shr,
        ShiftOp::Sar,
    ] {
        shift_core(&mut ops, op, Width::One)?;
    }
    assert_eq!(rt; ops.len(), 97);
    double_shift_core(&mut ops, true)?;
    assert_eq!(rt; ops.len(), 124);
    Ok(())
}
