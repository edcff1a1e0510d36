// The steps that are made directly: the commonest instructions of whole words, where what they use is known.
ghost use Rattle.mem_pages.specs.Accesses.{KeepsPages};
ghost use Rattle.mem_pages.specs.Contents.{memory_in};
ghost use Rattle.x86_step.specs.Making.{FastOrStays};

use crate::direct_alu::{alu_register, dec_register, inc_register};
use crate::direct_flow::{jcc, jmp};
use crate::direct_moves::{lea_register, mov_byte, mov_memory, mov_register, movzx_byte};
use crate::direct_products::{imul_by, imul_register};
use crate::direct_stack::{call, pop_register, push, ret};
use mem_pages::Pages;
use x86_meaning::Cpu;
use x86_types::{Instr, Rm, Width};

/// Makes a step of an instruction of `len` bytes directly, where it goes on to the next instruction; false where it isn't made
/// here, and nothing has changed.
#[rattlefmt::skip]
#[inline(always)]
pub(crate) fn direct(instr: &Instr, len: u8, cpu: &mut Cpu, mem: &mut Pages) -> bool
    ensures fast { FastOrStays instr.now len result cpu.old (memory_in mem.old) cpu.new (memory_in mem.new) }
    ensures keeps { KeepsPages mem.old mem.new }
{
    match *instr {
        Instr::Alu { op, width: Width::Four, to: Rm::Reg(to), from } => alu_register(op, to, from, len, cpu, mem),
        Instr::Mov { width: Width::Four, to: Rm::Reg(to), from } => mov_register(to, from, len, cpu, mem),
        Instr::Mov { width: Width::Four, to: Rm::Mem(to), from } => mov_memory(to, from, len, cpu, mem),
        Instr::Mov { width: Width::One, to: Rm::Mem(to), from } => mov_byte(to, from, len, cpu, mem),
        Instr::Jcc { cond, by } => jcc(cond, by, len, cpu, mem),
        Instr::Jmp { by } => jmp(by, len, cpu, mem),
        Instr::Inc { width: Width::Four, to: Rm::Reg(to) } => inc_register(to, len, cpu, mem),
        Instr::Dec { width: Width::Four, to: Rm::Reg(to) } => dec_register(to, len, cpu, mem),
        Instr::Lea { width: Width::Four, to, at } => lea_register(to, at, len, cpu, mem),
        Instr::Movzx { wide: Width::Four, width: Width::One, to, from: Rm::Mem(from) } => movzx_byte(to, from, len, cpu, mem),
        Instr::Imul { width: Width::Four, to, from } => imul_register(to, from, len, cpu, mem),
        Instr::ImulBy { width: Width::Four, to, from, by } => imul_by(to, from, by, len, cpu, mem),
        Instr::Push { from } => push(from, len, cpu, mem),
        Instr::Pop { to: Rm::Reg(to) } => pop_register(to, len, cpu, mem),
        Instr::Call { by } => call(by, len, cpu, mem),
        Instr::Ret { drop } => ret(drop, len, cpu, mem),
        _ => false,
    }
}
