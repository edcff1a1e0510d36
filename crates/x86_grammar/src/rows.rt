// Written by tools/rows.py.
// The facts of each row, a line each in the order of the opcode map.
ghost use Rattle.std.specs.Prelude.{◌≡◌, ◌<◌};
ghost use Rattle.x86_types.specs.Numbers.{number_of_alu, number_of_cond, number_of_reg};
ghost use Rattle.x86_grammar.specs.Rows as spec;

use crate::row::ImmSize::{Imm8, Imm16, Imm32, ImmOperand, NoImm};
use crate::row::RegField::{Any, Is, Nowhere};
use crate::row::{Attributes, F3, ImmSize, Prefixes, RegField, Row};
use x86_types::{AluOp, Cond, Reg, alu_number, cond_number, reg_number, shift_number};

fn bit(w: bool) -> u16
    ensures number { result ≡ spec.bit w }
    ensures small { result < 2 }
{
    if w { 1 } else { 0 }
}

fn alu_bits(op: AluOp) -> u16
    ensures number { result ≡ number_of_alu op }
    ensures small { result < 8 }
{
    alu_number(op) as u16
}

fn reg_bits(reg: Reg) -> u16
    ensures number { result ≡ number_of_reg reg }
    ensures small { result < 8 }
{
    reg_number(reg) as u16
}

fn cond_bits(cond: Cond) -> u16
    ensures number { result ≡ number_of_cond cond }
    ensures small { result < 16 }
{
    cond_number(cond) as u16
}

fn known_prefixes(operand_size: bool, any_66: bool, any_2e: bool, one_3e: bool, f3: F3) -> Prefixes
    ensures { result ≡ spec.known_prefixes operand_size any_66 any_2e one_3e f3 }
{
    Prefixes {
        operand_size,
        any_66,
        any_2e,
        one_3e,
        f3,
    }
}

fn no_prefix() -> Prefixes
    ensures { result ≡ spec.no_prefix }
{
    known_prefixes(false, false, false, false, F3::Never)
}

fn sized(w: bool) -> Prefixes
    ensures { result ≡ spec.sized w }
{
    known_prefixes(w, false, false, false, F3::Never)
}

fn sized_2e() -> Prefixes
    ensures { result ≡ spec.sized_2e }
{
    known_prefixes(true, false, true, false, F3::Never)
}

fn any_66() -> Prefixes
    ensures { result ≡ spec.any_66 }
{
    known_prefixes(false, true, false, false, F3::Never)
}

fn any_66_2e() -> Prefixes
    ensures { result ≡ spec.any_66_2e }
{
    known_prefixes(false, true, true, false, F3::Never)
}

fn one_3e() -> Prefixes
    ensures { result ≡ spec.one_3e }
{
    known_prefixes(false, false, false, true, F3::Never)
}

fn may_f3(w: bool) -> Prefixes
    ensures { result ≡ spec.may_f3 w }
{
    known_prefixes(w, false, false, false, F3::May)
}

fn must_f3() -> Prefixes
    ensures { result ≡ spec.must_f3 }
{
    known_prefixes(false, false, false, false, F3::Must)
}

fn not_eax(reg: Reg) -> RegField
    ensures { result ≡ spec.not_eax reg }
{
    match reg {
        Reg::Eax => Nowhere,
        Reg::Ecx => Any,
        Reg::Edx => Any,
        Reg::Ebx => Any,
        Reg::Esp => Any,
        Reg::Ebp => Any,
        Reg::Esi => Any,
        Reg::Edi => Any,
    }
}

fn modrm(opcode: u16, reg_field: RegField, prefixes: Prefixes, imm: ImmSize) -> Attributes
    ensures { result ≡ spec.modrm opcode reg_field prefixes imm }
{
    Attributes {
        opcode,
        modrm: true,
        reg_field,
        prefixes,
        imm,
    }
}

fn alone(opcode: u16, reg_field: RegField, prefixes: Prefixes, imm: ImmSize) -> Attributes
    ensures { result ≡ spec.alone opcode reg_field prefixes imm }
{
    Attributes {
        opcode,
        modrm: false,
        reg_field,
        prefixes,
        imm,
    }
}

/// The facts of a row. In its opcode 0x100 stands for 0F before the byte.
pub fn attributes_of(row: Row) -> Attributes
    ensures attributes { result ≡ spec.attributes_of row }
    ensures small { result.opcode < 0x200 }
{
    match row {
        Row::AluToRm(op, w) => modrm(8 * alu_bits(op) + bit(w), Any, sized(w), NoImm),
        Row::AluToReg(op, w) => modrm(8 * alu_bits(op) + (2 + bit(w)), Any, sized(w), NoImm),
        Row::AluAcc(op, w) => alone(
            8 * alu_bits(op) + (4 + bit(w)),
            Any,
            sized(w),
            ImmOperand(w),
        ),
        Row::IncReg(reg) => alone(0x40 + reg_bits(reg), Any, sized(true), NoImm),
        Row::DecReg(reg) => alone(0x48 + reg_bits(reg), Any, sized(true), NoImm),
        Row::PushReg(reg) => alone(0x50 + reg_bits(reg), Any, no_prefix(), NoImm),
        Row::PopReg(reg) => alone(0x58 + reg_bits(reg), Any, no_prefix(), NoImm),
        Row::PushWord => alone(0x68, Any, no_prefix(), Imm32),
        Row::ImulWord => modrm(0x69, Any, sized(true), ImmOperand(true)),
        Row::PushByte => alone(0x6A, Any, no_prefix(), Imm8),
        Row::ImulByte => modrm(0x6B, Any, sized(true), Imm8),
        Row::JccShort(cond) => alone(0x70 + cond_bits(cond), Any, no_prefix(), Imm8),
        Row::AluImm(w) => modrm(0x80 + bit(w), Any, sized(w), ImmOperand(w)),
        Row::AluByte => modrm(0x83, Any, sized(true), Imm8),
        Row::TestRm(w) => modrm(0x84 + bit(w), Any, sized(w), NoImm),
        Row::Xchg(w) => modrm(0x86 + bit(w), Any, sized(w), NoImm),
        Row::MovToRm(w) => modrm(0x88 + bit(w), Any, sized(w), NoImm),
        Row::MovToReg(w) => modrm(0x8A + bit(w), Any, sized(w), NoImm),
        Row::Lea => modrm(0x8D, Any, sized_2e(), NoImm),
        Row::Pop => modrm(0x8F, Is(0), no_prefix(), NoImm),
        Row::XchgAcc(reg) => alone(0x90 + reg_bits(reg), not_eax(reg), sized(true), NoImm),
        Row::Nop => alone(0x90, Any, any_66(), NoImm),
        Row::Extend => alone(0x98, Any, sized(true), NoImm),
        Row::Spread => alone(0x99, Any, sized(true), NoImm),
        Row::MovLoad(w) => alone(0xA0 + bit(w), Any, sized(w), Imm32),
        Row::MovStore(w) => alone(0xA2 + bit(w), Any, sized(w), Imm32),
        Row::Movs(w) => alone(0xA4 + bit(w), Any, may_f3(w), NoImm),
        Row::TestAcc(w) => alone(0xA8 + bit(w), Any, sized(w), ImmOperand(w)),
        Row::Stos(w) => alone(0xAA + bit(w), Any, may_f3(w), NoImm),
        Row::MovReg(reg, w) => alone(
            0xB0 + (8 * bit(w) + reg_bits(reg)),
            Any,
            sized(w),
            ImmOperand(w),
        ),
        Row::ShiftImm(op, w) => modrm(0xC0 + bit(w), Is(shift_number(op)), sized(w), Imm8),
        Row::RetDrop => alone(0xC2, Any, no_prefix(), Imm16),
        Row::Ret => alone(0xC3, Any, may_f3(false), NoImm),
        Row::MovImm(w) => modrm(0xC6 + bit(w), Is(0), sized(w), ImmOperand(w)),
        Row::Leave => alone(0xC9, Any, no_prefix(), NoImm),
        Row::Int80 => alone(0xCD, Any, no_prefix(), Imm8),
        Row::ShiftOne(op, w) => modrm(0xD0 + bit(w), Is(shift_number(op)), sized(w), NoImm),
        Row::ShiftCl(op, w) => modrm(0xD2 + bit(w), Is(shift_number(op)), sized(w), NoImm),
        Row::CallNear => alone(0xE8, Any, no_prefix(), Imm32),
        Row::JmpNear => alone(0xE9, Any, no_prefix(), Imm32),
        Row::JmpShort => alone(0xEB, Any, no_prefix(), Imm8),
        Row::TestImm(w) => modrm(0xF6 + bit(w), Is(0), sized(w), ImmOperand(w)),
        Row::Not(w) => modrm(0xF6 + bit(w), Is(2), sized(w), NoImm),
        Row::Neg(w) => modrm(0xF6 + bit(w), Is(3), sized(w), NoImm),
        Row::Mul(w) => modrm(0xF6 + bit(w), Is(4), sized(w), NoImm),
        Row::ImulWide(w) => modrm(0xF6 + bit(w), Is(5), sized(w), NoImm),
        Row::Div(w) => modrm(0xF6 + bit(w), Is(6), sized(w), NoImm),
        Row::Idiv(w) => modrm(0xF6 + bit(w), Is(7), sized(w), NoImm),
        Row::Cld => alone(0xFC, Any, no_prefix(), NoImm),
        Row::Inc(w) => modrm(0xFE + bit(w), Is(0), sized(w), NoImm),
        Row::Dec(w) => modrm(0xFE + bit(w), Is(1), sized(w), NoImm),
        Row::CallTo => modrm(0xFF, Is(2), one_3e(), NoImm),
        Row::JmpTo => modrm(0xFF, Is(4), one_3e(), NoImm),
        Row::Push => modrm(0xFF, Is(6), no_prefix(), NoImm),
        Row::NopEnd => alone(0x11E, Any, must_f3(), Imm8),
        Row::NopLong => modrm(0x11F, Is(0), any_66_2e(), NoImm),
        Row::Cmov(cond) => modrm(0x140 + cond_bits(cond), Any, sized(true), NoImm),
        Row::JccNear(cond) => alone(0x180 + cond_bits(cond), Any, no_prefix(), Imm32),
        Row::Setcc(cond) => modrm(0x190 + cond_bits(cond), Is(0), no_prefix(), NoImm),
        Row::ShldImm => modrm(0x1A4, Any, no_prefix(), Imm8),
        Row::ShldCl => modrm(0x1A5, Any, no_prefix(), NoImm),
        Row::ShrdImm => modrm(0x1AC, Any, no_prefix(), Imm8),
        Row::ShrdCl => modrm(0x1AD, Any, no_prefix(), NoImm),
        Row::Imul => modrm(0x1AF, Any, sized(true), NoImm),
        Row::MovzxByte => modrm(0x1B6, Any, sized(true), NoImm),
        Row::MovzxWord => modrm(0x1B7, Any, no_prefix(), NoImm),
        Row::Bsf => modrm(0x1BC, Any, sized(true), NoImm),
        Row::Bsr => modrm(0x1BD, Any, sized(true), NoImm),
        Row::MovsxByte => modrm(0x1BE, Any, sized(true), NoImm),
        Row::MovsxWord => modrm(0x1BF, Any, no_prefix(), NoImm),
        Row::BswapReg(reg) => alone(0x1C8 + reg_bits(reg), Any, no_prefix(), NoImm),
    }
}
