// Outcomes that are written in place to the stack, to esp and to a register, or nowhere.
ghost use Rattle.std.specs.Prelude.{◌≡◌, [], ◌∷◌, false};
ghost use Rattle.mem_pages.specs.Accesses.{KeepsPages};
ghost use Rattle.mem_pages.specs.Contents.{memory_in};
ghost use Rattle.x86_types.specs.Numbers.{number_of_reg};
ghost use Rattle.x86_meaning.specs.Outcomes as outcomes;
ghost use Rattle.x86_meaning.specs.TransferShapes as shapes;
ghost use Rattle.x86_step.specs.Computed.{computation_of, way_of};
ghost use Rattle.x86_step.specs.Finishing.{is_call};
ghost use Rattle.x86_step.specs.Making.{PerformsOrStays};

use crate::make::{make_flags, make_pop, make_push};
use crate::outcome::{Computed, Way};
use crate::values::Values;
use mem_pages::Pages;
use x86_meaning::{Cpu, Stop};
use x86_types::Reg;
use x86_values::{Flags, Word};

/// A way alone.
#[inline]
pub(crate) fn perform_way(flags: Flags, way: Way, len: u8, cpu: &mut Cpu, mem: &mut Pages) -> bool
    requires no_call { is_call (way_of way) ≡ false }
    ensures performs { PerformsOrStays [] (outcomes.computed [] flags (way_of way)) len result cpu.old (memory_in mem.old) cpu.new (memory_in mem.new) }
    ensures keeps { KeepsPages mem.old mem.new }
{
    make_flags(flags, way, len, cpu, mem)
}

// A word is pushed.
#[inline]
fn push_words(
    at: u32,
    word: Word,
    esp: Word,
    flags: Flags,
    way: Way,
    len: u8,
    cpu: &mut Cpu,
    mem: &mut Pages,
) -> bool
    requires no_call { is_call (way_of way) ≡ false }
    ensures performs { PerformsOrStays (shapes.stack_word at ∷ shapes.esp ∷ []) (outcomes.computed (word ∷ esp ∷ []) flags (way_of way)) len result cpu.old (memory_in mem.old) cpu.new (memory_in mem.new) }
    ensures keeps { KeepsPages mem.old mem.new }
{
    make_push(at, word, esp, flags, way, len, cpu, mem)
}

// A word is popped.
#[inline]
fn pop_words(
    to: Reg,
    esp: Word,
    word: Word,
    flags: Flags,
    way: Way,
    len: u8,
    cpu: &mut Cpu,
    mem: &mut Pages,
) -> bool
    requires no_call { is_call (way_of way) ≡ false }
    ensures performs { PerformsOrStays (shapes.esp ∷ shapes.register 4 (number_of_reg to) ∷ []) (outcomes.computed (esp ∷ word ∷ []) flags (way_of way)) len result cpu.old (memory_in mem.old) cpu.new (memory_in mem.new) }
    ensures keeps { KeepsPages mem.old mem.new }
{
    make_pop(to, word, esp, flags, way, len, cpu, mem)
}

/// An outcome of two values is written to the stack from an address on and to esp; false where nothing is done.
#[inline]
#[tactic(auto, using(crate::proofs::Performing::no_call))]
pub(crate) fn perform_push(
    at: u32,
    computed: Result<Computed, Stop>,
    len: u8,
    cpu: &mut Cpu,
    mem: &mut Pages,
) -> bool
    ensures performs { PerformsOrStays (shapes.stack_word at ∷ shapes.esp ∷ []) (computation_of computed) len result cpu.old (memory_in mem.old) cpu.new (memory_in mem.new) }
    ensures keeps { KeepsPages mem.old mem.new }
{
    match computed {
        Err(_) => false,
        Ok(computed) => match computed.way {
            Way::Calls => false,
            way => match computed.values {
                Values::Two(word, esp) => {
                    push_words(at, word, esp, computed.flags, way, len, cpu, mem)
                }
                _ => false,
            },
        },
    }
}

/// An outcome of two values is written to esp and to a register; false where nothing is done.
#[inline]
#[tactic(auto, using(crate::proofs::Performing::no_call))]
pub(crate) fn perform_pop(
    to: Reg,
    computed: Result<Computed, Stop>,
    len: u8,
    cpu: &mut Cpu,
    mem: &mut Pages,
) -> bool
    ensures performs { PerformsOrStays (shapes.esp ∷ shapes.register 4 (number_of_reg to) ∷ []) (computation_of computed) len result cpu.old (memory_in mem.old) cpu.new (memory_in mem.new) }
    ensures keeps { KeepsPages mem.old mem.new }
{
    match computed {
        Err(_) => false,
        Ok(computed) => match computed.way {
            Way::Calls => false,
            way => match computed.values {
                Values::Two(esp, word) => {
                    pop_words(to, esp, word, computed.flags, way, len, cpu, mem)
                }
                _ => false,
            },
        },
    }
}
