use crate::{Decoded, decode};
use x86_types::{Address, AluOp, Instr, Reg, Rm, Src, Width};

/// Fronts that stop early, opcodes that say nothing, and prefixes up to fifteen bytes. Intel SDM
/// volume 2, sections 2.1.1 and 2.3.11, appendix A, and the pages "LEA", "NOP" and "POP".
#[test]
fn fronts_and_prefixes(rt: HostRuntime) {
    let mut operand_sizes = [0x66; 16];
    operand_sizes[15] = 0x90;
    let rows = [
        (decode(&[]), Decoded::Short),
        (decode(&[0xB8, 0x01, 0x00]), Decoded::Short),
        (decode(&[0xF3, 0x0F, 0x1E]), Decoded::Short),
        (decode(&[0x0F, 0x28]), Decoded::Outside),
        (decode(&[0x82, 0xC0, 0x01]), Decoded::Outside),
        (decode(&[0xF6, 0xC8, 0x01]), Decoded::Outside),
        (decode(&[0x66, 0x8F]), Decoded::Outside),
        (decode(&[0x2E; 14]), Decoded::Outside),
        (
            decode(&[
                0x66, 0x66, 0x2E, 0x0F, 0x1F, 0x84, 0x00, 0x00, 0x00, 0x00, 0x00,
            ]),
            Decoded::One(Instr::Nop, 11),
        ),
        (decode(&operand_sizes), Decoded::Outside),
        (decode(&operand_sizes[1..]), Decoded::One(Instr::Nop, 15)),
    ];
    for (answer, wanted) in rows {
        assert_eq!(rt; answer, wanted);
    }
}

fn add_minus_one(width: Width, imm: u32) -> Instr {
    Instr::Alu {
        op: AluOp::Add,
        width,
        to: Rm::Reg(Reg::Eax),
        from: Src::Imm(imm),
    }
}

fn move_to_eax(base: Option<Reg>, index: Option<Reg>, scale: u8, disp: u32) -> Instr {
    Instr::Mov {
        width: Width::Four,
        to: Rm::Reg(Reg::Eax),
        from: Src::Mem(Address {
            base,
            index,
            scale,
            disp,
        }),
    }
}

/// Numbers with their signs, and addresses; what stands behind a spelling is not read. Intel SDM
/// volume 2, tables 2-2 and 2-3 and the pages "ADD" and "MOV".
#[test]
fn numbers_and_addresses(rt: HostRuntime) {
    let ebp = move_to_eax(Some(Reg::Ebp), Some(Reg::Ecx), 4, 0xFFFF_FFF8);
    let alone = move_to_eax(None, None, 1, 0x0804_A010);
    let esp = move_to_eax(Some(Reg::Esp), None, 1, 0);
    let rows = [
        (
            decode(&[0x83, 0xC0, 0xFF, 0x90]),
            Decoded::One(add_minus_one(Width::Four, 0xFFFF_FFFF), 3),
        ),
        (
            decode(&[0x66, 0x83, 0xC0, 0xFF]),
            Decoded::One(add_minus_one(Width::Two, 0xFFFF), 4),
        ),
        (decode(&[0x8B, 0x44, 0x8D, 0xF8]), Decoded::One(ebp, 4)),
        (
            decode(&[0xA1, 0x10, 0xA0, 0x04, 0x08]),
            Decoded::One(alone, 5),
        ),
        (
            decode(&[0x8B, 0x05, 0x10, 0xA0, 0x04, 0x08]),
            Decoded::One(alone, 6),
        ),
        (decode(&[0x8B, 0x04, 0x24]), Decoded::One(esp, 3)),
    ];
    for (answer, wanted) in rows {
        assert_eq!(rt; answer, wanted);
    }
}
