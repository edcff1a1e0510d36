ghost use Rattle.std.specs.Prelude.{◌≡◌};
ghost use Rattle.x86_grammar.specs.Table as spec;

use crate::row::{Group, Row};
use x86_types::{ShiftOp, shift_at};

fn unit_row(w: bool, reg_field: u8) -> Option<Row>
    ensures { result ≡ spec.unit_row w reg_field }
{
    match reg_field {
        0 => Some(Row::TestImm(w)),
        1 => None,
        2 => Some(Row::Not(w)),
        3 => Some(Row::Neg(w)),
        4 => Some(Row::Mul(w)),
        5 => Some(Row::ImulWide(w)),
        6 => Some(Row::Div(w)),
        7 => Some(Row::Idiv(w)),
        _ => None,
    }
}

fn step_row(w: bool, reg_field: u8) -> Option<Row>
    ensures { result ≡ spec.step_row w reg_field }
{
    match (w, reg_field) {
        (_, 0) => Some(Row::Inc(w)),
        (_, 1) => Some(Row::Dec(w)),
        (true, 2) => Some(Row::CallTo),
        (true, 4) => Some(Row::JmpTo),
        (true, 6) => Some(Row::Push),
        _ => None,
    }
}

fn first_row(row: Row, reg_field: u8) -> Option<Row>
    ensures { result ≡ spec.first_row row reg_field }
{
    match reg_field {
        0 => Some(row),
        _ => None,
    }
}

fn shift_imm(op: Option<ShiftOp>, w: bool) -> Option<Row>
    ensures { result ≡ spec.shift_row op (λ op. Row.ShiftImm op w) }
{
    match op {
        None => None,
        Some(op) => Some(Row::ShiftImm(op, w)),
    }
}

fn shift_one(op: Option<ShiftOp>, w: bool) -> Option<Row>
    ensures { result ≡ spec.shift_row op (λ op. Row.ShiftOne op w) }
{
    match op {
        None => None,
        Some(op) => Some(Row::ShiftOne(op, w)),
    }
}

fn shift_cl(op: Option<ShiftOp>, w: bool) -> Option<Row>
    ensures { result ≡ spec.shift_row op (λ op. Row.ShiftCl op w) }
{
    match op {
        None => None,
        Some(op) => Some(Row::ShiftCl(op, w)),
    }
}

/// The row of a group that ModRM's reg field names. F6 and F7 have none at 1, and the shifts
/// none at 2, 3 and 6.
pub fn member(group: Group, reg_field: u8) -> Option<Row>
    ensures row { result ≡ spec.member_of group reg_field }
{
    match group {
        Group::Pops => first_row(Row::Pop, reg_field),
        Group::Moves(w) => first_row(Row::MovImm(w), reg_field),
        Group::Units(w) => unit_row(w, reg_field),
        Group::Steps(w) => step_row(w, reg_field),
        Group::ShiftsImm(w) => shift_imm(shift_at(reg_field), w),
        Group::ShiftsOne(w) => shift_one(shift_at(reg_field), w),
        Group::ShiftsCl(w) => shift_cl(shift_at(reg_field), w),
        Group::Sets(cond) => first_row(Row::Setcc(cond), reg_field),
        Group::Nops => first_row(Row::NopLong, reg_field),
    }
}
