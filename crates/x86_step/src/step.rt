// One step.
ghost use Rattle.mem_pages.specs.Accesses.{KeepsPages};
ghost use Rattle.mem_pages.specs.Contents.{memory_in};
ghost use Rattle.std.specs.Prelude.{◌≡◌, ◌≢◌, ◌+◌};
ghost use Rattle.memory.specs.Memory.{wrapped};
ghost use Rattle.x86_types.specs.declared.instr.Instr.TheVariants as variants;
ghost use Rattle.x86_step.specs.Finishing.{stepped_by};
ghost use Rattle.x86_step.specs.Making.{FastOrStays};
ghost use Rattle.x86_step.specs.Steps.{StepsOrStays};

use crate::Stepped;
use crate::direct::direct;
use crate::fast::fast;
use crate::finish::finish;
use crate::judge::effect;
use mem_pages::Pages;
use std::alloc::AllocError;
use x86_meaning::{Cpu, Stop, step_laws};
use x86_types::Instr;

// The end of a stop.
fn stopped(stop: Stop) -> Stepped
    ensures { result ≡ stepped_by stop }
{
    match stop {
        Stop::MemoryFault => Stepped::MemoryFault,
        Stop::DivideFault => Stepped::DivideFault,
        Stop::Unspecified => Stepped::Unspecified,
    }
}

/// The address behind an instruction of `len` bytes.
#[inline(always)]
pub(crate) fn behind(eip: u32, len: u8) -> u32
    ensures { result ≡ wrapped (eip + len) }
{
    ((eip as u64 + len as u64) % 0x1_0000_0000) as u32
}

// Makes one step of an instruction that makes no system call.
fn step_whole(instr: &Instr, len: u8, cpu: &mut Cpu, mem: &mut Pages) -> Result<Stepped, AllocError>
    requires no_call { instr.now ≢ variants.Int80 }
    ensures steps { StepsOrStays instr.now len result cpu.old (memory_in mem.old) cpu.new (memory_in mem.new) }
    ensures keeps { KeepsPages mem.old mem.new }
{
    step_laws();
    match effect(instr, behind(cpu.eip, len), cpu, mem) {
        Err(stop) => Ok(stopped(stop)),
        Ok(effect) => finish(&effect, len, cpu, mem),
    }
}

// Makes such a step directly or in place, where it can.
#[inline(always)]
#[tactic(auto, using(crate::proofs::Stepping::keeps_then, crate::proofs::Stepping::fast_after))]
fn fast_step(instr: &Instr, len: u8, cpu: &mut Cpu, mem: &mut Pages) -> bool
    ensures fast { FastOrStays instr.now len result cpu.old (memory_in mem.old) cpu.new (memory_in mem.new) }
    ensures keeps { KeepsPages mem.old mem.new }
{
    if direct(instr, len, cpu, mem) {
        true
    } else {
        fast(instr, len, cpu, mem)
    }
}

// Makes such a step in place where it can, and else the whole way.
#[inline(always)]
#[tactic(auto, using(crate::proofs::Stepping::keeps_then))]
fn step_plain(instr: &Instr, len: u8, cpu: &mut Cpu, mem: &mut Pages) -> Result<Stepped, AllocError>
    requires no_call { instr.now ≢ variants.Int80 }
    ensures steps { StepsOrStays instr.now len result cpu.old (memory_in mem.old) cpu.new (memory_in mem.new) }
    ensures keeps { KeepsPages mem.old mem.new }
{
    if fast_step(instr, len, cpu, mem) {
        Ok(Stepped::Next)
    } else {
        step_whole(instr, len, cpu, mem)
    }
}

/// Makes one step of an instruction of `len` bytes that stands at eip. A system call is not made: eip moves on, and the answer is
/// `Call`. A step that ends the run changes nothing, and neither does one for which memory is wanting.
#[inline]
pub fn step_one(
    instr: &Instr,
    len: u8,
    cpu: &mut Cpu,
    mem: &mut Pages,
) -> Result<Stepped, AllocError>
    ensures steps { StepsOrStays instr.now len result cpu.old (memory_in mem.old) cpu.new (memory_in mem.new) }
    ensures keeps { KeepsPages mem.old mem.new }
{
    match instr {
        Instr::Int80 => {
            cpu.eip = behind(cpu.eip, len);
            Ok(Stepped::Call)
        }
        _ => step_plain(instr, len, cpu, mem),
    }
}
