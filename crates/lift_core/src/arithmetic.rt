// The lists of arithmetic, logic and shifts.
ghost use Rattle.std.specs.Prelude.{◌≡◌, ◌++◌, OnOk};
ghost use Rattle.x86_types.specs.declared.width.Width.TheVariants.{One};
ghost use Rattle.x86_meaning.specs.TransferShapes.{cancels};
ghost use Rattle.lift_values.specs.Sums.{dec_core, inc_core, neg_core};
ghost use Rattle.lift_values.specs.Logic.{alu_core, not_core, test_core};
ghost use Rattle.lift_values.specs.Shifts.{shift_core};
ghost use Rattle.lift_values.specs.Products.{imul_core};
ghost use Rattle.lift_core.specs.declared.operand.Operand.TheVariants as operand;
ghost use Rattle.lift_core.specs.Pieces.{field_operand, read_ops, source_of_rm, source_ops, target, target_ops, write_ops};
ghost use Rattle.lift_core.specs.Lists.{accumulator_operand, alu_reads_ops, alu_writes_ops, both_writes, combine_ops, count_of, divide_ops, double_shift_ops, is_same, is_same_operand, multiply_ops, update_ops, upper_operand};

use crate::operand::Operand;
use crate::pieces::{
    field_operand, read_ops, source_of_rm, source_ops, target, target_ops, write_ops,
};
use flag_ir::Op;
use lift_values::{
    alu_core, dec_core, div_core, double_shift_core, imul_core, inc_core, mul_core, neg_core,
    not_core, shift_core, test_core,
};
use std::alloc::AllocError;
use x86_types::{AluOp, Count, Reg, Rm, ShiftOp, Src, Width};

// ---- one operand
/// Appends INC.
#[tactic(auto, using(std::proofs::Common::append_assoc))]
pub(crate) fn inc(ops: &mut Vec<Op>, width: Width, to: Rm) -> Result<(), AllocError>
    ensures { OnOk result (ops.new.items ≡ ops.old.items ++ update_ops width to (inc_core width)) }
{
    let operand = target(width, to);
    target_ops(ops, to)?;
    read_ops(ops, 1, width, operand)?;
    inc_core(ops, width)?;
    write_ops(ops, 4, width, operand)
}

/// Appends DEC.
#[tactic(auto, using(std::proofs::Common::append_assoc))]
pub(crate) fn dec(ops: &mut Vec<Op>, width: Width, to: Rm) -> Result<(), AllocError>
    ensures { OnOk result (ops.new.items ≡ ops.old.items ++ update_ops width to (dec_core width)) }
{
    let operand = target(width, to);
    target_ops(ops, to)?;
    read_ops(ops, 1, width, operand)?;
    dec_core(ops, width)?;
    write_ops(ops, 4, width, operand)
}

/// Appends NOT.
#[tactic(auto, using(std::proofs::Common::append_assoc))]
pub(crate) fn not(ops: &mut Vec<Op>, width: Width, to: Rm) -> Result<(), AllocError>
    ensures { OnOk result (ops.new.items ≡ ops.old.items ++ update_ops width to (not_core width)) }
{
    let operand = target(width, to);
    target_ops(ops, to)?;
    read_ops(ops, 1, width, operand)?;
    not_core(ops, width)?;
    write_ops(ops, 4, width, operand)
}

/// Appends NEG.
#[tactic(auto, using(std::proofs::Common::append_assoc))]
pub(crate) fn neg(ops: &mut Vec<Op>, width: Width, to: Rm) -> Result<(), AllocError>
    ensures { OnOk result (ops.new.items ≡ ops.old.items ++ update_ops width to (neg_core width)) }
{
    let operand = target(width, to);
    target_ops(ops, to)?;
    read_ops(ops, 1, width, operand)?;
    neg_core(ops, width)?;
    write_ops(ops, 4, width, operand)
}

// ---- ADD to CMP, and TEST
fn cancels(op: AluOp) -> bool
    ensures { result ≡ cancels op }
{
    match op {
        AluOp::Sbb | AluOp::Sub | AluOp::Xor | AluOp::Cmp => true,
        AluOp::Add | AluOp::Or | AluOp::Adc | AluOp::And => false,
    }
}

fn is_same_operand(left: Operand, right: Operand) -> bool
    ensures { result ≡ is_same_operand left right }
{
    match (left, right) {
        (Operand::Register(p, i), Operand::Register(q, j)) => p == q && i == j,
        _ => false,
    }
}

fn is_same(width: Width, to: Rm, from: Src) -> bool
    ensures { result ≡ is_same width to from }
{
    match (to, from) {
        (Rm::Reg(left), Src::Reg(right)) => is_same_operand(
            field_operand(width, left),
            field_operand(width, right),
        ),
        _ => false,
    }
}

#[tactic(auto, using(std::proofs::Common::append_assoc))]
fn alu_reads(
    ops: &mut Vec<Op>,
    op: AluOp,
    width: Width,
    to: Rm,
    from: Src,
) -> Result<(), AllocError>
    ensures { OnOk result (ops.new.items ≡ ops.old.items ++ alu_reads_ops op width to from) }
{
    if cancels(op) && is_same(width, to, from) {
        read_ops(ops, 1, width, Operand::Constant(0))?;
        read_ops(ops, 2, width, Operand::Constant(0))
    } else {
        read_ops(ops, 1, width, target(width, to))?;
        source_ops(ops, 2, width, from)
    }
}

fn alu_writes(ops: &mut Vec<Op>, op: AluOp, width: Width, to: Rm) -> Result<(), AllocError>
    ensures { OnOk result (ops.new.items ≡ ops.old.items ++ alu_writes_ops op width to) }
{
    match op {
        AluOp::Cmp => Ok(()),
        AluOp::Add | AluOp::Or | AluOp::Adc | AluOp::Sbb | AluOp::And | AluOp::Sub | AluOp::Xor =>
            write_ops(ops, 4, width, target(width, to)),
    }
}

/// Appends ADD, OR, ADC, SBB, AND, SUB, XOR or CMP.
#[tactic(auto, using(std::proofs::Common::append_assoc))]
pub(crate) fn alu(
    ops: &mut Vec<Op>,
    op: AluOp,
    width: Width,
    to: Rm,
    from: Src,
) -> Result<(), AllocError>
    ensures { OnOk result (ops.new.items ≡ ops.old.items ++ (target_ops to ++ (alu_reads_ops op width to from ++ (alu_core op width ++ alu_writes_ops op width to)))) }
{
    target_ops(ops, to)?;
    alu_reads(ops, op, width, to, from)?;
    alu_core(ops, op, width)?;
    alu_writes(ops, op, width, to)
}

/// Appends TEST.
#[tactic(auto, using(std::proofs::Common::append_assoc))]
pub(crate) fn test(ops: &mut Vec<Op>, width: Width, to: Rm, from: Src) -> Result<(), AllocError>
    ensures { OnOk result (ops.new.items ≡ ops.old.items ++ (target_ops to ++ (read_ops 1 width (target width to) ++ (source_ops 2 width from ++ test_core width)))) }
{
    target_ops(ops, to)?;
    read_ops(ops, 1, width, target(width, to))?;
    source_ops(ops, 2, width, from)?;
    test_core(ops, width)
}

// ---- products and divisions
fn upper_operand(width: Width) -> Operand
    ensures { result ≡ upper_operand width }
{
    match width {
        Width::One => Operand::Register(0, 1),
        Width::Two | Width::Four => Operand::Register(2, 0),
    }
}

#[tactic(auto, using(std::proofs::Common::append_assoc))]
fn both_writes(ops: &mut Vec<Op>, width: Width) -> Result<(), AllocError>
    ensures { OnOk result (ops.new.items ≡ ops.old.items ++ both_writes width) }
{
    write_ops(ops, 4, width, Operand::Register(0, 0))?;
    write_ops(ops, 5, width, upper_operand(width))
}

/// Appends MUL, or IMUL of one operand.
#[tactic(auto, using(std::proofs::Common::append_assoc))]
pub(crate) fn multiply(
    ops: &mut Vec<Op>,
    signed: bool,
    width: Width,
    from: Rm,
) -> Result<(), AllocError>
    ensures { OnOk result (ops.new.items ≡ ops.old.items ++ multiply_ops signed width from) }
{
    read_ops(ops, 1, width, Operand::Register(0, 0))?;
    source_ops(ops, 2, width, source_of_rm(from))?;
    mul_core(ops, signed, width)?;
    both_writes(ops, width)
}

/// Appends DIV or IDIV.
#[tactic(auto, using(std::proofs::Common::append_assoc))]
pub(crate) fn divide(
    ops: &mut Vec<Op>,
    signed: bool,
    width: Width,
    from: Rm,
) -> Result<(), AllocError>
    ensures { OnOk result (ops.new.items ≡ ops.old.items ++ divide_ops signed width from) }
{
    read_ops(ops, 1, width, upper_operand(width))?;
    read_ops(ops, 2, width, Operand::Register(0, 0))?;
    source_ops(ops, 3, width, source_of_rm(from))?;
    div_core(ops, signed, width)?;
    both_writes(ops, width)
}

/// Appends IMUL of two operands.
#[tactic(auto, using(std::proofs::Common::append_assoc))]
pub(crate) fn imul(ops: &mut Vec<Op>, width: Width, to: Reg, from: Rm) -> Result<(), AllocError>
    ensures { OnOk result (ops.new.items ≡ ops.old.items ++ combine_ops width to (read_ops 1 width (field_operand width to) ++ source_ops 2 width (source_of_rm from)) (imul_core width)) }
{
    let operand = field_operand(width, to);
    read_ops(ops, 1, width, operand)?;
    source_ops(ops, 2, width, source_of_rm(from))?;
    imul_core(ops, width)?;
    write_ops(ops, 4, width, operand)
}

/// Appends IMUL of three operands.
#[tactic(auto, using(std::proofs::Common::append_assoc))]
pub(crate) fn imul_by(
    ops: &mut Vec<Op>,
    width: Width,
    to: Reg,
    from: Rm,
    by: u32,
) -> Result<(), AllocError>
    ensures { OnOk result (ops.new.items ≡ ops.old.items ++ combine_ops width to (source_ops 1 width (source_of_rm from) ++ read_ops 2 width (operand.Constant by)) (imul_core width)) }
{
    source_ops(ops, 1, width, source_of_rm(from))?;
    read_ops(ops, 2, width, Operand::Constant(by))?;
    imul_core(ops, width)?;
    write_ops(ops, 4, width, field_operand(width, to))
}

// ---- shifts
fn count_of(count: Count) -> Operand
    ensures { result ≡ count_of count }
{
    match count {
        Count::Imm(n) => Operand::Constant(u32::from(n)),
        Count::Cl => Operand::Register(1, 0),
    }
}

/// Appends a shift or a rotate.
#[tactic(auto, using(std::proofs::Common::append_assoc))]
pub(crate) fn shift(
    ops: &mut Vec<Op>,
    op: ShiftOp,
    width: Width,
    to: Rm,
    count: Count,
) -> Result<(), AllocError>
    ensures { OnOk result (ops.new.items ≡ ops.old.items ++ (target_ops to ++ (read_ops 1 width (target width to) ++ (read_ops 2 One (count_of count) ++ (shift_core op width ++ write_ops 4 width (target width to)))))) }
{
    let operand = target(width, to);
    target_ops(ops, to)?;
    read_ops(ops, 1, width, operand)?;
    read_ops(ops, 2, Width::One, count_of(count))?;
    shift_core(ops, op, width)?;
    write_ops(ops, 4, width, operand)
}

/// Appends SHLD or SHRD.
#[tactic(auto, using(std::proofs::Common::append_assoc))]
pub(crate) fn double_shift(
    ops: &mut Vec<Op>,
    right: bool,
    to: Rm,
    from: Reg,
    count: Count,
) -> Result<(), AllocError>
    ensures { OnOk result (ops.new.items ≡ ops.old.items ++ double_shift_ops right to from count) }
{
    let operand = target(Width::Four, to);
    target_ops(ops, to)?;
    read_ops(ops, 1, Width::Four, operand)?;
    read_ops(ops, 2, Width::Four, field_operand(Width::Four, from))?;
    read_ops(ops, 3, Width::One, count_of(count))?;
    double_shift_core(ops, right)?;
    write_ops(ops, 4, Width::Four, operand)
}
