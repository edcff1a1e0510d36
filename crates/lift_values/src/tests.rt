// What no clause says: that the lists are made where there is memory.
use crate::{
    alu_core, cmov_core, condition_ops, dec_core, div_core, extend_core, imul_core, inc_core,
    move_core, mul_core, neg_core, not_core, scan_core, set_core, spread_core, swap_core,
    test_core,
};
use flag_ir::Op;
use std::test::Fail;
use x86_types::{AluOp, Cond, Width};

#[test]
fn appends_sums(rt: HostRuntime) -> Result<(), Fail> {
    let mut ops: Vec<Op> = Vec::new(rt.alloc());
    for op in [
        AluOp::Add,
        AluOp::Or,
        AluOp::Adc,
        AluOp::Sbb,
        AluOp::And,
        AluOp::Sub,
        AluOp::Xor,
        AluOp::Cmp,
    ] {
        alu_core(&mut ops, op, Width::Two)?;
    }
    assert_eq!(rt; ops.len(), 121);
    test_core(&mut ops, Width::One)?;
    inc_core(&mut ops, Width::One)?;
    dec_core(&mut ops, Width::Four)?;
    neg_core(&mut ops, Width::Two)?;
    not_core(&mut ops, Width::Four)?;
    assert_eq!(rt; ops.len(), 179);
    Ok(())
}

#[test]
fn appends_products(rt: HostRuntime) -> Result<(), Fail> {
    let mut ops: Vec<Op> = Vec::new(rt.alloc());
    mul_core(&mut ops, false, Width::Four)?;
    mul_core(&mut ops, true, Width::One)?;
    imul_core(&mut ops, Width::Two)?;
    div_core(&mut ops, true, Width::One)?;
    assert_eq!(rt; ops.len(), 33);
    Ok(())
}

#[test]
fn appends_extensions_and_conditions(rt: HostRuntime) -> Result<(), Fail> {
    let mut ops: Vec<Op> = Vec::new(rt.alloc());
    move_core(&mut ops)?;
    extend_core(&mut ops, Width::Four, Width::One)?;
    extend_core(&mut ops, Width::One, Width::Two)?;
    spread_core(&mut ops, Width::Four)?;
    swap_core(&mut ops)?;
    assert_eq!(rt; ops.len(), 34);
    scan_core(&mut ops, true, Width::Four)?;
    scan_core(&mut ops, false, Width::Two)?;
    assert_eq!(rt; ops.len(), 87);
    condition_ops(&mut ops, Cond::Le)?;
    set_core(&mut ops, Cond::G)?;
    cmov_core(&mut ops, Cond::E, Width::Four)?;
    assert_eq!(rt; ops.len(), 96);
    Ok(())
}
