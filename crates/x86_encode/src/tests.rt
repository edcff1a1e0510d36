// What is expected is written by hand, from the opcodes and tables of Intel SDM volume 2: the shortest
// bytes, and of several as short the first in the order of bytes.
mod instructions;

use crate::{encode, encode_wide};
use instructions::{
    EAX, EBP, EBX, ECX, EDI, ESI, ESP, alone, alu, base, bsf, bsr, bswap, call, call_to, cmov, dec,
    div, extend, idiv, imul, imul_by, imul_wide, inc, indexed, jcc, jmp, jmp_to, lea, mov, movs,
    movsx, movzx, mul, neg, not, pop, push, ret, scaled, setcc, shift, shld, shrd, spread, stos,
    test, xchg,
};
use std::process::Abort;
use x86_grammar::has_spelling;
use x86_types::Reg::{Eax, Ebp, Ebx, Ecx, Edi, Edx, Esi, Esp};
use x86_types::Width::{Four, One, Two};
use x86_types::{AluOp, Cond, Count, Instr, Rm, ShiftOp, Src};

fn expect(rt: &impl Abort, instr: Instr, wanted: &[u8]) {
    let mut out = [0xCC; 16];
    assert!(rt; has_spelling(&instr), "{instr:?}");
    let len = encode(&instr, &mut out);
    assert_eq!(rt; &out[..len], wanted, "{instr:?}");
}

fn expect_wide(rt: &impl Abort, instr: Instr, wanted: &[u8]) {
    let mut out = [0xCC; 16];
    assert!(rt; has_spelling(&instr), "{instr:?}");
    let len = encode_wide(&instr, &mut out);
    assert_eq!(rt; &out[..len], wanted, "{instr:?}");
}

/// Page "IMUL": of two operands there is none of one byte.
#[test]
fn no_spelling_of_one_byte(rt: HostRuntime) {
    let from = Rm::Reg(Ecx);
    assert!(rt; !has_spelling(&imul(One, Eax, from)));
    assert!(rt; has_spelling(&imul(Four, Eax, from)));
}

/// Pages "ADC", "ADD", "AND", "CMP", "OR", "SBB", "SUB", "TEST" and "XOR".
#[test]
fn arithmetic_on_two_operands(rt: HostRuntime) {
    let rows: [(Instr, &[u8]); 20] = [
        (alu(AluOp::Add, One, EAX, Src::Reg(Ecx)), b"\x00\xC8"),
        (alu(AluOp::Add, Two, EAX, Src::Reg(Ecx)), b"\x66\x01\xC8"),
        (alu(AluOp::Add, Four, EAX, Src::Reg(Ecx)), b"\x01\xC8"),
        (alu(AluOp::Or, One, EAX, Src::Imm(5)), b"\x0C\x05"),
        (alu(AluOp::Adc, Two, EAX, Src::Imm(5)), b"\x66\x15\x05\x00"),
        (alu(AluOp::Add, Four, EAX, Src::Imm(5)), b"\x83\xC0\x05"),
        (
            alu(AluOp::Add, Four, EAX, Src::Imm(0x1234_5678)),
            b"\x05\x78\x56\x34\x12",
        ),
        (alu(AluOp::Sbb, One, ECX, Src::Imm(0x80)), b"\x80\xD9\x80"),
        (
            alu(AluOp::Sub, Two, ECX, Src::Imm(0xFFFF)),
            b"\x66\x83\xE9\xFF",
        ),
        (
            alu(AluOp::And, Two, ECX, Src::Imm(0x1234)),
            b"\x66\x81\xE1\x34\x12",
        ),
        (
            alu(AluOp::Add, Four, ECX, Src::Imm(0x80)),
            b"\x81\xC1\x80\x00\x00\x00",
        ),
        (
            alu(AluOp::Xor, Four, ESI, Src::Mem(base(Edi, 0))),
            b"\x33\x37",
        ),
        (
            alu(AluOp::Cmp, One, Rm::Mem(base(Ebp, 0)), Src::Reg(Ebx)),
            b"\x38\x5D\x00",
        ),
        (
            alu(
                AluOp::Add,
                Two,
                Rm::Mem(indexed(Eax, Ecx, 4, 0x1234_5678)),
                Src::Imm(0x1234),
            ),
            b"\x66\x81\x84\x88\x78\x56\x34\x12\x34\x12",
        ),
        (test(One, EAX, Src::Imm(1)), b"\xA8\x01"),
        (test(Two, EAX, Src::Imm(0x1234)), b"\x66\xA9\x34\x12"),
        (test(Four, EAX, Src::Imm(1)), b"\xA9\x01\x00\x00\x00"),
        (test(One, ECX, Src::Imm(1)), b"\xF6\xC1\x01"),
        (test(Four, ECX, Src::Reg(Eax)), b"\x85\xC1"),
        (test(Two, EBX, Src::Imm(1)), b"\x66\xF7\xC3\x01\x00"),
    ];
    for (instr, wanted) in rows {
        expect(&rt, instr, wanted);
    }
}

/// Pages "LEA" and "MOV".
#[test]
fn moves(rt: HostRuntime) {
    let rows: [(Instr, &[u8]); 18] = [
        (mov(Four, EBX, Src::Imm(7)), b"\xBB\x07\x00\x00\x00"),
        (mov(Two, ECX, Src::Imm(7)), b"\x66\xB9\x07\x00"),
        (mov(One, ESP, Src::Imm(7)), b"\xB4\x07"),
        (
            mov(One, Rm::Mem(base(Eax, 0)), Src::Imm(7)),
            b"\xC6\x00\x07",
        ),
        (
            mov(Two, Rm::Mem(base(Eax, 0)), Src::Imm(7)),
            b"\x66\xC7\x00\x07\x00",
        ),
        (
            mov(Four, Rm::Mem(base(Eax, 0)), Src::Imm(7)),
            b"\xC7\x00\x07\x00\x00\x00",
        ),
        (mov(Four, ECX, Src::Reg(Edx)), b"\x89\xD1"),
        (mov(One, EBP, Src::Reg(Eax)), b"\x88\xC5"),
        (
            mov(Four, EAX, Src::Mem(alone(0x0804_A010))),
            b"\xA1\x10\xA0\x04\x08",
        ),
        (
            mov(Two, EAX, Src::Mem(alone(0x0804_A010))),
            b"\x66\xA1\x10\xA0\x04\x08",
        ),
        (
            mov(One, EAX, Src::Mem(alone(0x0804_A010))),
            b"\xA0\x10\xA0\x04\x08",
        ),
        (
            mov(Four, Rm::Mem(alone(0x0804_A010)), Src::Reg(Eax)),
            b"\xA3\x10\xA0\x04\x08",
        ),
        (
            mov(Two, Rm::Mem(alone(0x0804_A010)), Src::Reg(Eax)),
            b"\x66\xA3\x10\xA0\x04\x08",
        ),
        (
            mov(One, Rm::Mem(alone(0x0804_A010)), Src::Reg(Eax)),
            b"\xA2\x10\xA0\x04\x08",
        ),
        (
            mov(Four, ECX, Src::Mem(alone(0x0804_A010))),
            b"\x8B\x0D\x10\xA0\x04\x08",
        ),
        (
            mov(Four, Rm::Mem(alone(0x0804_A010)), Src::Reg(Ecx)),
            b"\x89\x0D\x10\xA0\x04\x08",
        ),
        (
            lea(Four, Eax, scaled(Ecx, 4, 0)),
            b"\x8D\x04\x8D\x00\x00\x00\x00",
        ),
        (lea(Two, Eax, base(Ecx, 1)), b"\x66\x8D\x41\x01"),
    ];
    for (instr, wanted) in rows {
        expect(&rt, instr, wanted);
    }
}

/// Tables 2-2 and 2-3.
#[test]
fn addresses(rt: HostRuntime) {
    let rows: [(Instr, &[u8]); 13] = [
        (mov(Four, ECX, Src::Mem(base(Eax, 0))), b"\x8B\x08"),
        (mov(Four, ECX, Src::Mem(base(Ebp, 0))), b"\x8B\x4D\x00"),
        (mov(Four, ECX, Src::Mem(base(Esp, 0))), b"\x8B\x0C\x24"),
        (mov(Four, ECX, Src::Mem(base(Eax, 0x7F))), b"\x8B\x48\x7F"),
        (
            mov(Four, ECX, Src::Mem(base(Eax, 0x80))),
            b"\x8B\x88\x80\x00\x00\x00",
        ),
        (
            mov(Four, ECX, Src::Mem(base(Eax, 0xFFFF_FF80))),
            b"\x8B\x48\x80",
        ),
        (
            mov(Four, ECX, Src::Mem(base(Eax, 0xFFFF_FF7F))),
            b"\x8B\x88\x7F\xFF\xFF\xFF",
        ),
        (
            mov(Four, ECX, Src::Mem(indexed(Eax, Ecx, 1, 0))),
            b"\x8B\x0C\x08",
        ),
        (
            mov(Four, ECX, Src::Mem(indexed(Ecx, Eax, 1, 0))),
            b"\x8B\x0C\x01",
        ),
        (
            mov(Four, ECX, Src::Mem(indexed(Ebp, Esi, 2, 0))),
            b"\x8B\x4C\x75\x00",
        ),
        (
            mov(Four, ECX, Src::Mem(indexed(Esp, Esi, 8, 0xFFFF_FFFC))),
            b"\x8B\x4C\xF4\xFC",
        ),
        (
            mov(Four, ECX, Src::Mem(scaled(Ecx, 1, 0))),
            b"\x8B\x0C\x0D\x00\x00\x00\x00",
        ),
        (
            mov(Four, ECX, Src::Mem(indexed(Edi, Ebp, 4, 0x100))),
            b"\x8B\x8C\xAF\x00\x01\x00\x00",
        ),
    ];
    for (instr, wanted) in rows {
        expect(&rt, instr, wanted);
    }
}

/// Pages "DEC", "DIV", "IDIV", "IMUL", "INC", "MUL", "NEG" and "NOT".
#[test]
fn arithmetic_on_one_operand(rt: HostRuntime) {
    let rows: [(Instr, &[u8]); 25] = [
        (inc(One, EAX), b"\xFE\xC0"),
        (inc(Two, ECX), b"\x66\x41"),
        (inc(Four, EDI), b"\x47"),
        (inc(Four, Rm::Mem(base(Esp, 0))), b"\xFF\x04\x24"),
        (dec(One, ECX), b"\xFE\xC9"),
        (dec(Two, EAX), b"\x66\x48"),
        (dec(Four, ESI), b"\x4E"),
        (not(One, ECX), b"\xF6\xD1"),
        (not(Two, ECX), b"\x66\xF7\xD1"),
        (not(Four, ECX), b"\xF7\xD1"),
        (neg(One, ECX), b"\xF6\xD9"),
        (neg(Two, ECX), b"\x66\xF7\xD9"),
        (neg(Four, ECX), b"\xF7\xD9"),
        (mul(One, ECX), b"\xF6\xE1"),
        (mul(Two, ECX), b"\x66\xF7\xE1"),
        (mul(Four, ECX), b"\xF7\xE1"),
        (imul_wide(One, ECX), b"\xF6\xE9"),
        (imul_wide(Two, ECX), b"\x66\xF7\xE9"),
        (imul_wide(Four, ECX), b"\xF7\xE9"),
        (div(One, ECX), b"\xF6\xF1"),
        (div(Two, ECX), b"\x66\xF7\xF1"),
        (div(Four, ECX), b"\xF7\xF1"),
        (idiv(One, ECX), b"\xF6\xF9"),
        (idiv(Two, ECX), b"\x66\xF7\xF9"),
        (idiv(Four, ECX), b"\xF7\xF9"),
    ];
    for (instr, wanted) in rows {
        expect(&rt, instr, wanted);
    }
}

/// Pages "BSF", "BSR", "BSWAP", "CMOVcc", "IMUL", "MOVSX/MOVSXD", "MOVZX" and "SETcc".
#[test]
fn arithmetic_on_a_register(rt: HostRuntime) {
    let rows: [(Instr, &[u8]); 20] = [
        (imul(Two, Eax, ECX), b"\x66\x0F\xAF\xC1"),
        (imul(Four, Eax, ECX), b"\x0F\xAF\xC1"),
        (imul_by(Two, Eax, ECX, 5), b"\x66\x6B\xC1\x05"),
        (imul_by(Two, Eax, ECX, 1000), b"\x66\x69\xC1\xE8\x03"),
        (imul_by(Four, Eax, ECX, 1000), b"\x69\xC1\xE8\x03\x00\x00"),
        (imul_by(Four, Eax, ECX, 0xFFFF_FF80), b"\x6B\xC1\x80"),
        (movzx(Two, One, Eax, ECX), b"\x66\x0F\xB6\xC1"),
        (movzx(Four, One, Eax, ECX), b"\x0F\xB6\xC1"),
        (movzx(Four, Two, Eax, ECX), b"\x0F\xB7\xC1"),
        (movsx(Two, One, Eax, ECX), b"\x66\x0F\xBE\xC1"),
        (movsx(Four, One, Eax, ECX), b"\x0F\xBE\xC1"),
        (movsx(Four, Two, Eax, ECX), b"\x0F\xBF\xC1"),
        (cmov(Cond::E, Two, Eax, ECX), b"\x66\x0F\x44\xC1"),
        (cmov(Cond::G, Four, Eax, ECX), b"\x0F\x4F\xC1"),
        (setcc(Cond::E, EAX), b"\x0F\x94\xC0"),
        (bsf(Two, Eax, ECX), b"\x66\x0F\xBC\xC1"),
        (bsf(Four, Eax, ECX), b"\x0F\xBC\xC1"),
        (bsr(Two, Eax, ECX), b"\x66\x0F\xBD\xC1"),
        (bsr(Four, Eax, ECX), b"\x0F\xBD\xC1"),
        (bswap(Eax), b"\x0F\xC8"),
    ];
    for (instr, wanted) in rows {
        expect(&rt, instr, wanted);
    }
}

/// Pages "RCL/RCR/ROL/ROR", "SAL/SAR/SHL/SHR", "SHLD" and "SHRD".
#[test]
fn shifts(rt: HostRuntime) {
    let rows: [(Instr, &[u8]); 11] = [
        (
            shift(ShiftOp::Shl, Four, EAX, Count::Imm(5)),
            b"\xC1\xE0\x05",
        ),
        (shift(ShiftOp::Shl, Four, EAX, Count::Imm(1)), b"\xD1\xE0"),
        (shift(ShiftOp::Sar, One, ECX, Count::Imm(1)), b"\xD0\xF9"),
        (
            shift(ShiftOp::Shr, Two, ECX, Count::Imm(1)),
            b"\x66\xD1\xE9",
        ),
        (
            shift(ShiftOp::Rol, One, ECX, Count::Imm(0)),
            b"\xC0\xC1\x00",
        ),
        (shift(ShiftOp::Ror, Two, EAX, Count::Cl), b"\x66\xD3\xC8"),
        (shift(ShiftOp::Ror, One, EAX, Count::Cl), b"\xD2\xC8"),
        (shld(EAX, Ecx, Count::Imm(3)), b"\x0F\xA4\xC8\x03"),
        (shld(EAX, Ecx, Count::Cl), b"\x0F\xA5\xC8"),
        (shrd(EAX, Ecx, Count::Imm(1)), b"\x0F\xAC\xC8\x01"),
        (shrd(EAX, Ecx, Count::Cl), b"\x0F\xAD\xC8"),
    ];
    for (instr, wanted) in rows {
        expect(&rt, instr, wanted);
    }
}

/// Pages "LEAVE", "POP", "PUSH" and "XCHG".
#[test]
fn stack_and_exchange(rt: HostRuntime) {
    let rows: [(Instr, &[u8]); 13] = [
        (push(Src::Reg(Ebp)), b"\x55"),
        (push(Src::Imm(0x7F)), b"\x6A\x7F"),
        (push(Src::Imm(0x80)), b"\x68\x80\x00\x00\x00"),
        (push(Src::Imm(0xFFFF_FF80)), b"\x6A\x80"),
        (push(Src::Mem(base(Esp, 8))), b"\xFF\x74\x24\x08"),
        (pop(EBP), b"\x5D"),
        (pop(Rm::Mem(base(Eax, 0))), b"\x8F\x00"),
        (xchg(Four, EAX, Ecx), b"\x91"),
        (xchg(Two, EAX, Edi), b"\x66\x97"),
        (xchg(One, EAX, Ecx), b"\x86\xC8"),
        (xchg(Four, ECX, Eax), b"\x87\xC1"),
        (xchg(Four, EAX, Eax), b"\x87\xC0"),
        (Instr::Leave, b"\xC9"),
    ];
    for (instr, wanted) in rows {
        expect(&rt, instr, wanted);
    }
}

/// Pages "CBW/CWDE/CDQE", "CLD", "CWD/CDQ/CQO", "INT n", "MOVS", "NOP", "REP" and "STOS".
#[test]
fn strings_and_the_rest(rt: HostRuntime) {
    let rows: [(Instr, &[u8]); 19] = [
        (extend(Two), b"\x66\x98"),
        (extend(Four), b"\x98"),
        (spread(Two), b"\x66\x99"),
        (spread(Four), b"\x99"),
        (movs(One, false), b"\xA4"),
        (movs(Two, false), b"\x66\xA5"),
        (movs(Four, false), b"\xA5"),
        (movs(One, true), b"\xF3\xA4"),
        (movs(Two, true), b"\x66\xF3\xA5"),
        (movs(Four, true), b"\xF3\xA5"),
        (stos(One, false), b"\xAA"),
        (stos(Two, false), b"\x66\xAB"),
        (stos(Four, false), b"\xAB"),
        (stos(One, true), b"\xF3\xAA"),
        (stos(Two, true), b"\x66\xF3\xAB"),
        (stos(Four, true), b"\xF3\xAB"),
        (Instr::Cld, b"\xFC"),
        (Instr::Nop, b"\x90"),
        (Instr::Int80, b"\xCD\x80"),
    ];
    for (instr, wanted) in rows {
        expect(&rt, instr, wanted);
    }
}

/// Pages "CALL", "Jcc", "JMP" and "RET".
#[test]
fn jumps(rt: HostRuntime) {
    let rows: [(Instr, &[u8]); 13] = [
        (jmp(0), b"\xEB\x00"),
        (jmp(0x7F), b"\xEB\x7F"),
        (jmp(0x80), b"\xE9\x80\x00\x00\x00"),
        (jmp(0xFFFF_FF80), b"\xEB\x80"),
        (jmp(0xFFFF_FF7F), b"\xE9\x7F\xFF\xFF\xFF"),
        (jcc(Cond::E, 0), b"\x74\x00"),
        (jcc(Cond::G, 0x100), b"\x0F\x8F\x00\x01\x00\x00"),
        (jmp_to(EAX), b"\xFF\xE0"),
        (
            jmp_to(Rm::Mem(scaled(Eax, 4, 0x0804_9054))),
            b"\xFF\x24\x85\x54\x90\x04\x08",
        ),
        (call_to(EAX), b"\xFF\xD0"),
        (call(16), b"\xE8\x10\x00\x00\x00"),
        (ret(0), b"\xC3"),
        (ret(8), b"\xC2\x08\x00"),
    ];
    for (instr, wanted) in rows {
        expect(&rt, instr, wanted);
    }
}

/// Pages "Jcc" and "JMP"; all else is as it is without.
#[test]
fn wide_jumps(rt: HostRuntime) {
    let rows: [(Instr, &[u8]); 8] = [
        (jmp(0), b"\xE9\x00\x00\x00\x00"),
        (jmp(0xFFFF_FFFE), b"\xE9\xFE\xFF\xFF\xFF"),
        (jcc(Cond::E, 0), b"\x0F\x84\x00\x00\x00\x00"),
        (jcc(Cond::No, 0x100), b"\x0F\x81\x00\x01\x00\x00"),
        (alu(AluOp::Add, Four, EAX, Src::Imm(5)), b"\x83\xC0\x05"),
        (push(Src::Imm(0x7F)), b"\x6A\x7F"),
        (call(16), b"\xE8\x10\x00\x00\x00"),
        (Instr::Nop, b"\x90"),
    ];
    for (instr, wanted) in rows {
        expect_wide(&rt, instr, wanted);
    }
}
