// A step is finished: its store is judged and made, and registers, flags and eip are written back.
ghost use Rattle.std.specs.Prelude.{◌≡◌, ◌+◌, false};
ghost use Rattle.mem_pages.specs.Accesses.{KeepsPages, Stores};
ghost use Rattle.mem_pages.specs.Contents.{memory_in};
ghost use Rattle.x86_step.specs.Computed.{way_of};
ghost use Rattle.x86_step.specs.Finishing.{MovesOrStays, StoresIf, is_call, rest_of_step};
ghost use Rattle.x86_step.specs.Judged as judged;
ghost use Rattle.x86_step.specs.Transferred.{bytes_in_size};

use crate::Stepped;
use crate::effect::{Effect, Stored};
use crate::operand::{Size, register};
use crate::outcome::Way;
use mem_pages::{PageFault, Pages};
use std::alloc::AllocError;
use x86_meaning::Cpu;
use x86_types::Reg;
use x86_values::{Word, known};

fn count(size: Size) -> u32
    ensures { result ≡ bytes_in_size size }
{
    match size {
        Size::Zero => 0,
        Size::One => 1,
        Size::Two => 2,
        Size::Four => 4,
    }
}

// Whether the store of an effect is allowed.
fn can_store(stored: Option<Stored>, mem: &Pages) -> bool
    ensures { result ≡ judged.store_allowed stored (memory_in mem.now) }
{
    match stored {
        None => true,
        Some(stored) => mem.can_store(stored.at, count(stored.size)),
    }
}

// The lowest bytes of a word are stored from an address on.
#[tactic(auto, using(crate::proofs::Storing::no_bytes, crate::proofs::Storing::keeps_itself))]
#[inline]
pub(crate) fn store_word(mem: &mut Pages, at: u32, size: Size, word: Word) -> Result<(), PageFault>
    ensures stores { Stores at (bytes_in_size size) word result mem.old mem.new }
    ensures keeps { KeepsPages mem.old mem.new }
{
    match size {
        Size::Zero => Ok(()),
        Size::One => mem.store(at, 1, word),
        Size::Two => mem.store(at, 2, word),
        Size::Four => mem.store(at, 4, word),
    }
}

// The store of an effect is judged and made.
#[tactic(auto, using(crate::proofs::Storing::stores_if, crate::proofs::Storing::keeps_itself))]
fn store(stored: Option<Stored>, mem: &mut Pages) -> Result<(), PageFault>
    ensures stores { StoresIf stored result mem.old mem.new }
    ensures keeps { KeepsPages mem.old mem.new }
{
    match stored {
        None => Ok(()),
        Some(stored) => store_word(mem, stored.at, stored.size, stored.word),
    }
}

// The address of the next instruction, behind one of `len` bytes.
#[inline]
pub(crate) fn eip_after(way: Way, eip: u32, len: u8) -> u32
    ensures { result ≡ judged.eip_after (way_of way) eip (eip + len) }
{
    let next = eip as u64 + len as u64;
    match way {
        Way::Falls => (next % 0x1_0000_0000) as u32,
        Way::JumpsBy(by) => ((next + by as u64) % 0x1_0000_0000) as u32,
        Way::JumpsTo(target) => target,
        Way::Repeats => eip,
        Way::Calls => (next % 0x1_0000_0000) as u32,
    }
}

/// The store is judged, and then esp; only where both allow it anything changes. Where esp has an unspecified byte the step
/// ends.
pub(crate) fn finish(
    effect: &Effect,
    len: u8,
    cpu: &mut Cpu,
    mem: &mut Pages,
) -> Result<Stepped, AllocError>
    requires no_call { is_call (way_of effect.now.way) ≡ false }
    ensures moves { MovesOrStays (rest_of_step effect.now len cpu.old (memory_in mem.old)) result cpu.old (memory_in mem.old) cpu.new (memory_in mem.new) }
    ensures keeps { KeepsPages mem.old mem.new }
{
    match known(register(&effect.regs, Reg::Esp)) {
        None => {
            if can_store(effect.store, mem) {
                Ok(Stepped::Unspecified)
            } else {
                Ok(Stepped::MemoryFault)
            }
        }
        Some(esp) => match store(effect.store, mem) {
            Ok(()) => {
                cpu.eip = eip_after(effect.way, cpu.eip, len);
                cpu.regs = effect.regs;
                cpu.flags = effect.flags;
                mem.forget_below(esp);
                Ok(Stepped::Next)
            }
            Err(PageFault::NotMapped) => Ok(Stepped::MemoryFault),
            Err(PageFault::NotWritable) => Ok(Stepped::MemoryFault),
            Err(PageFault::Memory) => Err(AllocError),
        },
    }
}
