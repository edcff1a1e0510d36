ghost use Rattle.std.specs.Prelude.{◌≡◌, ◌<◌, ℕ, Some, None, Option};
ghost use Rattle.x86_types.specs.Numbers.{number_of_reg, reg_of, number_of_alu, alu_of, number_of_shift, shift_of, number_of_cond, cond_of};

use crate::operand::Reg;
use crate::operation::{AluOp, Cond, ShiftOp};

/// The register's number.
pub fn reg_number(reg: Reg) -> u8
    ensures number { result ≡ number_of_reg reg }
    ensures small { result < 8 }
{
    match reg {
        Reg::Eax => 0,
        Reg::Ecx => 1,
        Reg::Edx => 2,
        Reg::Ebx => 3,
        Reg::Esp => 4,
        Reg::Ebp => 5,
        Reg::Esi => 6,
        Reg::Edi => 7,
    }
}

/// The register of that number, Edi from 7 on.
pub fn reg_at(n: u8) -> Reg
    ensures register { result ≡ reg_of n }
{
    match n {
        0 => Reg::Eax,
        1 => Reg::Ecx,
        2 => Reg::Edx,
        3 => Reg::Ebx,
        4 => Reg::Esp,
        5 => Reg::Ebp,
        6 => Reg::Esi,
        _ => Reg::Edi,
    }
}

/// The operation's number.
pub fn alu_number(op: AluOp) -> u8
    ensures number { result ≡ number_of_alu op }
    ensures small { result < 8 }
{
    match op {
        AluOp::Add => 0,
        AluOp::Or => 1,
        AluOp::Adc => 2,
        AluOp::Sbb => 3,
        AluOp::And => 4,
        AluOp::Sub => 5,
        AluOp::Xor => 6,
        AluOp::Cmp => 7,
    }
}

/// The operation of that number, Cmp from 7 on.
pub fn alu_at(n: u8) -> AluOp
    ensures operation { result ≡ alu_of n }
{
    match n {
        0 => AluOp::Add,
        1 => AluOp::Or,
        2 => AluOp::Adc,
        3 => AluOp::Sbb,
        4 => AluOp::And,
        5 => AluOp::Sub,
        6 => AluOp::Xor,
        _ => AluOp::Cmp,
    }
}

/// The shift's number.
pub fn shift_number(op: ShiftOp) -> u8
    ensures number { result ≡ number_of_shift op }
    ensures small { result < 8 }
{
    match op {
        ShiftOp::Rol => 0,
        ShiftOp::Ror => 1,
        ShiftOp::Shl => 4,
        ShiftOp::Shr => 5,
        ShiftOp::Sar => 7,
    }
}

/// The shift of that number, None for 2, 3, 6 and from 8 on.
pub fn shift_at(n: u8) -> Option<ShiftOp>
    ensures shift { result ≡ shift_of n }
{
    match n {
        0 => Some(ShiftOp::Rol),
        1 => Some(ShiftOp::Ror),
        4 => Some(ShiftOp::Shl),
        5 => Some(ShiftOp::Shr),
        7 => Some(ShiftOp::Sar),
        _ => None,
    }
}

/// The condition's number.
pub fn cond_number(cond: Cond) -> u8
    ensures number { result ≡ number_of_cond cond }
    ensures small { result < 16 }
{
    match cond {
        Cond::O => 0,
        Cond::No => 1,
        Cond::B => 2,
        Cond::Ae => 3,
        Cond::E => 4,
        Cond::Ne => 5,
        Cond::Be => 6,
        Cond::A => 7,
        Cond::S => 8,
        Cond::Ns => 9,
        Cond::P => 10,
        Cond::Np => 11,
        Cond::L => 12,
        Cond::Ge => 13,
        Cond::Le => 14,
        Cond::G => 15,
    }
}

/// The condition of that number, G from 15 on.
pub fn cond_at(n: u8) -> Cond
    ensures condition { result ≡ cond_of n }
{
    match n {
        0 => Cond::O,
        1 => Cond::No,
        2 => Cond::B,
        3 => Cond::Ae,
        4 => Cond::E,
        5 => Cond::Ne,
        6 => Cond::Be,
        7 => Cond::A,
        8 => Cond::S,
        9 => Cond::Ns,
        10 => Cond::P,
        11 => Cond::Np,
        12 => Cond::L,
        13 => Cond::Ge,
        14 => Cond::Le,
        _ => Cond::G,
    }
}

/// The numbers and what they name are each other's inverses.
pub fn number_laws()
    ensures registers { (r : Reg) → reg_of (number_of_reg r) ≡ r }
    ensures registers_back { (n : ℕ) → n < 8 → number_of_reg (reg_of n) ≡ n }
    ensures operations { (op : AluOp) → alu_of (number_of_alu op) ≡ op }
    ensures operations_back { (n : ℕ) → n < 8 → number_of_alu (alu_of n) ≡ n }
    ensures shifts { (op : ShiftOp) → shift_of (number_of_shift op) ≡ Some op }
    ensures shifts_back { (n : ℕ) (op : ShiftOp) → shift_of n ≡ Some op → number_of_shift op ≡ n }
    ensures conditions { (c : Cond) → cond_of (number_of_cond c) ≡ c }
    ensures conditions_back { (n : ℕ) → n < 16 → number_of_cond (cond_of n) ≡ n }
{}
