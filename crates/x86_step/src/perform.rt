// Outcomes that are written in place.
ghost use Rattle.std.specs.Prelude.{◌≡◌, [], ◌∷◌, false};
ghost use Rattle.mem_pages.specs.Accesses.{KeepsPages};
ghost use Rattle.mem_pages.specs.Contents.{memory_in};
ghost use Rattle.x86_meaning.specs.Outcomes as outcomes;
ghost use Rattle.x86_step.specs.Computed.{computation_of, way_of};
ghost use Rattle.x86_step.specs.Finishing.{is_call};
ghost use Rattle.x86_step.specs.Making.{PerformsOrStays};
ghost use Rattle.x86_step.specs.Transferred.{as_field, operand_of};

use crate::effect::{with_lowest, with_second};
use crate::make::{make_flags, make_register, make_store};
use crate::operand::{Location, Place, register};
use crate::operands::{Field, Operand};
use crate::outcome::{Computed, Way};
use crate::values::Values;
use mem_pages::Pages;
use x86_meaning::{Cpu, Stop};
use x86_values::{Flags, Word};

// A word is written to an operand in a register.
#[inline]
fn perform_field(
    to: Field,
    word: Word,
    flags: Flags,
    way: Way,
    len: u8,
    cpu: &mut Cpu,
    mem: &mut Pages,
) -> bool
    requires no_call { is_call (way_of way) ≡ false }
    ensures performs { PerformsOrStays (as_field to ∷ []) (outcomes.computed (word ∷ []) flags (way_of way)) len result cpu.old (memory_in mem.old) cpu.new (memory_in mem.new) }
    ensures keeps { KeepsPages mem.old mem.new }
{
    match to.place {
        Place::Lowest(reg) => {
            let word = with_lowest(to.size, word, register(&cpu.regs, reg));
            make_register(reg, word, flags, way, len, cpu, mem)
        }
        Place::Second(reg) => {
            let word = with_second(to.size, word, register(&cpu.regs, reg));
            make_register(reg, word, flags, way, len, cpu, mem)
        }
    }
}

// A word is written to an operand.
#[inline]
fn perform_value(
    to: Operand,
    word: Word,
    flags: Flags,
    way: Way,
    len: u8,
    cpu: &mut Cpu,
    mem: &mut Pages,
) -> bool
    requires no_call { is_call (way_of way) ≡ false }
    ensures performs { PerformsOrStays (operand_of to ∷ []) (outcomes.computed (word ∷ []) flags (way_of way)) len result cpu.old (memory_in mem.old) cpu.new (memory_in mem.new) }
    ensures keeps { KeepsPages mem.old mem.new }
{
    let size = to.size;
    match to.location {
        Location::Register(place) => {
            let field = Field { size, place };
            perform_field(field, word, flags, way, len, cpu, mem)
        }
        Location::Memory(at) => make_store(at, size, word, flags, way, len, cpu, mem),
        Location::Constant(_) => make_flags(flags, way, len, cpu, mem),
    }
}

// Flags and a way alone.
#[inline]
fn perform_flags(
    to: Operand,
    flags: Flags,
    way: Way,
    len: u8,
    cpu: &mut Cpu,
    mem: &mut Pages,
) -> bool
    requires no_call { is_call (way_of way) ≡ false }
    ensures performs { PerformsOrStays (operand_of to ∷ []) (outcomes.computed [] flags (way_of way)) len result cpu.old (memory_in mem.old) cpu.new (memory_in mem.new) }
    ensures keeps { KeepsPages mem.old mem.new }
{
    let _ = to;
    make_flags(flags, way, len, cpu, mem)
}

/// An outcome of at most one value is written to an operand; false where nothing is done.
#[inline]
#[tactic(auto, using(crate::proofs::Performing::no_call))]
pub(crate) fn perform(
    to: Operand,
    computed: Result<Computed, Stop>,
    len: u8,
    cpu: &mut Cpu,
    mem: &mut Pages,
) -> bool
    ensures performs { PerformsOrStays (operand_of to ∷ []) (computation_of computed) len result cpu.old (memory_in mem.old) cpu.new (memory_in mem.new) }
    ensures keeps { KeepsPages mem.old mem.new }
{
    match computed {
        Err(_) => false,
        Ok(computed) => match computed.way {
            Way::Calls => false,
            way => match computed.values {
                Values::Zero => perform_flags(to, computed.flags, way, len, cpu, mem),
                Values::One(word) => perform_value(to, word, computed.flags, way, len, cpu, mem),
                _ => false,
            },
        },
    }
}
