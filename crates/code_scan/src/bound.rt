// Table jumps, and what bounds their tables.
ghost use Rattle.std.specs.Prelude.{◌≡◌, false, reverse};
ghost use Rattle.plan_types.specs.Tables as spec;

use plan_types::Place;
use x86_types::{Address, AluOp, Cond, Instr, Reg, Rm, Src, Width};

// The index register of a table jump and the address of its table: JMP [T + r*4], without a base.
pub(crate) fn table_jump(instr: &Instr) -> Option<(Reg, u32)>
    ensures { result ≡ spec.table_jump instr.now }
{
    match *instr {
        Instr::JmpTo {
            to: Rm::Mem(
                Address {
                    base: None,
                    index: Some(index),
                    scale: 4,
                    disp,
                },
            ),
        } => Some((index, disp)),
        _ => None,
    }
}

// The constant with which CMP compares a register.
fn compared_with(reg: Reg, instr: &Instr) -> Option<u32>
    ensures { result ≡ spec.compared_with reg instr.now }
{
    match *instr {
        Instr::Alu {
            op: AluOp::Cmp,
            width: Width::Four,
            to: Rm::Reg(other),
            from: Src::Imm(n),
        } if other == reg => Some(n),
        _ => None,
    }
}

// JA rel.
fn is_above(instr: &Instr) -> bool
    ensures { result ≡ spec.is_above instr.now }
{
    matches!(instr, Instr::Jcc { cond: Cond::A, .. })
}

// The constant of the nearest CMP of the register, from the last place back, that has a JA behind it.
pub(crate) fn bound_behind(reg: Reg, before: &[Place]) -> Option<u32>
    ensures { result ≡ spec.bound_behind reg false (reverse before.now) }
{
    let mut above = false;
    let mut left = before.len();
    while left > 0 {
        left -= 1;
        let instr = &before[left].instr;
        if above && let Some(bound) = compared_with(reg, instr) {
            return Some(bound);
        }
        above = above || is_above(instr);
    }
    None
}
