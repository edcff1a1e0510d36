// How a unit begins with the registers and flags of a state, and shows those that it ends with: as a run of a unit gives its memory alone,
// they are stored in the page of the states, below the addresses that those have.
use flag_ir::{Op, Term, Var};
use mem_pages::Pages;
use std::alloc::{AllocError, Global};
use x86_meaning::Cpu;
use x86_values::{Flags, Word, known};

const REGISTERS: u32 = 0x2000_0000;

const FLAGS: u32 = 0x2000_0020;

fn set_to(to: Var, value: Option<u32>) -> Op {
    match value {
        Some(value) => Op::Set {
            to,
            from: Term::Word(value),
        },
        None => Op::Forget { to },
    }
}

/// Operations that make the registers and flags those of a state.
pub fn loading_ops(alloc: Global, cpu: &Cpu) -> Result<Vec<Op>, AllocError> {
    let mut ops = Vec::new(alloc);
    for place in 0..8u8 {
        let value = known(cpu.regs[place as usize]);
        ops.push(set_to(Var::Reg(place), value))?;
    }
    let Flags { cf, pf, zf, sf, of } = cpu.flags;
    let flags = [cf, pf, zf, sf, of];
    for place in 0..5u8 {
        let value = flags[place as usize].map(u32::from);
        ops.push(set_to(Var::Flag(place), value))?;
    }
    Ok(ops)
}

fn store_at(at: u32, from: Var) -> Op {
    Op::Store {
        size: 4,
        at: Term::Word(at),
        from: Term::Var(from),
    }
}

/// Adds operations that store the registers and flags.
pub fn store_all(ops: &mut Vec<Op>) -> Result<(), AllocError> {
    for place in 0..8u8 {
        ops.push(store_at(REGISTERS + 4 * u32::from(place), Var::Reg(place)))?;
    }
    for place in 0..5u8 {
        ops.push(store_at(FLAGS + 4 * u32::from(place), Var::Flag(place)))?;
    }
    Ok(())
}

// A flag of a unit is 0 or 1.
fn flag_of(word: Word) -> Option<bool> {
    match known(word) {
        Some(0) => Some(false),
        Some(1) => Some(true),
        _ => None,
    }
}

fn flag_at(pages: &Pages, at: u32) -> Option<bool> {
    pages.load(at, 4).and_then(flag_of)
}

/// Takes the registers and flags that were stored.
pub fn take_stored(pages: &Pages, cpu: &mut Cpu) {
    for place in 0..8u8 {
        if let Some(word) = pages.load(REGISTERS + 4 * u32::from(place), 4) {
            cpu.regs[place as usize] = word;
        }
    }
    cpu.flags = Flags {
        cf: flag_at(pages, FLAGS),
        pf: flag_at(pages, FLAGS + 4),
        zf: flag_at(pages, FLAGS + 8),
        sf: flag_at(pages, FLAGS + 12),
        of: flag_at(pages, FLAGS + 16),
    };
}
