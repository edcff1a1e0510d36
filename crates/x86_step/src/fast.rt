// The steps that are made in place.
ghost use Rattle.mem_pages.specs.Accesses.{KeepsPages};
ghost use Rattle.mem_pages.specs.Contents.{memory_in};
ghost use Rattle.x86_step.specs.Making.{FastOrStays};

use crate::fast_flow::{
    fast_call, fast_jcc, fast_jmp, fast_lea, fast_leave, fast_pop, fast_push, fast_ret,
};
use crate::fast_one::{fast_dec, fast_imul, fast_inc, fast_movsx, fast_movzx, fast_shift};
use crate::fast_two::{fast_alu, fast_mov, fast_test};
use mem_pages::Pages;
use x86_meaning::Cpu;
use x86_types::{Instr, Rm};

/// Makes a step of an instruction of `len` bytes in place, where it goes on to the next instruction; false where it isn't made
/// here, and nothing has changed.
#[rattlefmt::skip]
pub(crate) fn fast(instr: &Instr, len: u8, cpu: &mut Cpu, mem: &mut Pages) -> bool
    ensures fast { FastOrStays instr.now len result cpu.old (memory_in mem.old) cpu.new (memory_in mem.new) }
    ensures keeps { KeepsPages mem.old mem.new }
{
    match *instr {
        Instr::Mov { width, to, from } => fast_mov(width, to, from, len, cpu, mem),
        Instr::Alu { op, width, to, from } => fast_alu(op, width, to, from, len, cpu, mem),
        Instr::Test { width, left, right } => fast_test(width, left, right, len, cpu, mem),
        Instr::Jcc { cond, by } => fast_jcc(cond, by, len, cpu, mem),
        Instr::Lea { width, to, at } => fast_lea(width, to, at, len, cpu, mem),
        Instr::Push { from } => fast_push(from, len, cpu, mem),
        Instr::Pop { to: Rm::Reg(to) } => fast_pop(to, len, cpu, mem),
        Instr::Call { by } => fast_call(by, len, cpu, mem),
        Instr::Ret { drop } => fast_ret(drop, len, cpu, mem),
        Instr::Leave => fast_leave(len, cpu, mem),
        Instr::Jmp { by } => fast_jmp(by, len, cpu, mem),
        Instr::Inc { width, to } => fast_inc(width, to, len, cpu, mem),
        Instr::Dec { width, to } => fast_dec(width, to, len, cpu, mem),
        Instr::Shift { op, width, to, count } => fast_shift(op, width, count, to, len, cpu, mem),
        Instr::Movzx { wide, width, to, from } => fast_movzx(wide, width, to, from, len, cpu, mem),
        Instr::Movsx { wide, width, to, from } => fast_movsx(wide, width, to, from, len, cpu, mem),
        Instr::Imul { width, to, from } => fast_imul(width, to, from, len, cpu, mem),
        _ => false,
    }
}
