// Jumps that are made directly.
ghost use Rattle.std.specs.Prelude.{◌≡◌, Some, true, false, not};
ghost use Rattle.std.specs.Option.{option_map};
ghost use Rattle.mem_pages.specs.Accesses.{KeepsPages};
ghost use Rattle.mem_pages.specs.Contents.{memory_in};
ghost use Rattle.x86_types.specs.declared.instr.Instr.TheVariants as instr;
ghost use Rattle.x86_types.specs.declared.operand.Rm.TheVariants as rm;
ghost use Rattle.x86_types.specs.declared.width.Width.TheVariants as widths;
ghost use Rattle.x86_step.specs.Making.{FastOrStays};
ghost use Rattle.x86_values.specs.Conditions as conditions;
ghost use Rattle.x86_values.specs.Results as results;

use crate::direct_make::make_way;
use crate::outcome::Way;
use mem_pages::Pages;
use x86_meaning::{Cpu, step_laws};
use x86_types::Cond;
use x86_values::Flags;

/// JMP; false where it isn't made here, and nothing has changed.
#[inline(always)]
pub(crate) fn jmp(by: u32, len: u8, cpu: &mut Cpu, mem: &mut Pages) -> bool
    ensures fast { FastOrStays (instr.Jmp by) len result cpu.old (memory_in mem.old) cpu.new (memory_in mem.new) }
    ensures keeps { KeepsPages mem.old mem.new }
{
    step_laws();
    make_way(Way::JumpsBy(by), len, cpu, mem)
}

#[inline(always)]
fn negated(flag: Option<bool>) -> Option<bool>
    ensures { result ≡ option_map not flag }
{
    match flag {
        Some(flag) => Some(!flag),
        None => None,
    }
}

// CF or ZF.
#[inline(always)]
fn below_or_equal(flags: &Flags) -> Option<bool>
    ensures { result ≡ conditions.of_two conditions.is_below_or_equal flags.now.cf flags.now.zf }
{
    match (flags.cf, flags.zf) {
        (Some(cf), Some(zf)) => Some(cf || zf),
        _ => None,
    }
}

// SF differs from OF.
#[inline(always)]
fn less(flags: &Flags) -> Option<bool>
    ensures { result ≡ conditions.of_two results.differ flags.now.sf flags.now.of }
{
    match (flags.sf, flags.of) {
        (Some(sf), Some(of)) => Some(sf != of),
        _ => None,
    }
}

// ZF, or SF differs from OF.
#[inline(always)]
fn less_or_equal(flags: &Flags) -> Option<bool>
    ensures { result ≡ conditions.of_three conditions.is_less_or_equal flags.now.zf flags.now.sf flags.now.of }
{
    match (flags.zf, flags.sf, flags.of) {
        (Some(zf), Some(sf), Some(of)) => Some(zf || sf != of),
        _ => None,
    }
}

// Whether a condition holds by the flags.
#[inline(always)]
fn holds(cond: Cond, flags: &Flags) -> Option<bool>
    ensures { result ≡ conditions.condition cond flags.now }
{
    match cond {
        Cond::O => flags.of,
        Cond::No => negated(flags.of),
        Cond::B => flags.cf,
        Cond::Ae => negated(flags.cf),
        Cond::E => flags.zf,
        Cond::Ne => negated(flags.zf),
        Cond::Be => below_or_equal(flags),
        Cond::A => negated(below_or_equal(flags)),
        Cond::S => flags.sf,
        Cond::Ns => negated(flags.sf),
        Cond::P => flags.pf,
        Cond::Np => negated(flags.pf),
        Cond::L => less(flags),
        Cond::Ge => negated(less(flags)),
        Cond::Le => less_or_equal(flags),
        Cond::G => negated(less_or_equal(flags)),
    }
}

/// Jcc; false where it isn't made here, and nothing has changed.
#[inline(always)]
pub(crate) fn jcc(cond: Cond, by: u32, len: u8, cpu: &mut Cpu, mem: &mut Pages) -> bool
    ensures fast { FastOrStays (instr.Jcc cond by) len result cpu.old (memory_in mem.old) cpu.new (memory_in mem.new) }
    ensures keeps { KeepsPages mem.old mem.new }
{
    step_laws();
    match holds(cond, &cpu.flags) {
        None => false,
        Some(holds) => {
            if holds {
                make_way(Way::JumpsBy(by), len, cpu, mem)
            } else {
                make_way(Way::Falls, len, cpu, mem)
            }
        }
    }
}
