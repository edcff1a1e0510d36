// What an instruction comes to, before anything changes.
ghost use Rattle.std.specs.Prelude.{◌≡◌, []};
ghost use Rattle.mem_pages.specs.Contents.{memory_in};
ghost use Rattle.x86_meaning.specs.Effect as effects;
ghost use Rattle.x86_meaning.specs.Registers.{machine_naming};
ghost use Rattle.x86_meaning.specs.Transfers as transfers;
ghost use Rattle.x86_step.specs.Judged as spec;
ghost use Rattle.x86_step.specs.Judged.{effect_seen, effect_seen_if, processor_of};
ghost use Rattle.x86_step.specs.Computed.{values_of, way_of};
ghost use Rattle.x86_step.specs.Transferred.{writes_of};
ghost use Rattle.x86_step.specs.Steps.{registers_of};

use crate::access::values;
use crate::computing::compute;
use crate::effect::{Effect, write_all};
use crate::operands::Writes;
use crate::outcome::Computed;
use crate::transfer::transfer;
use mem_pages::Pages;
use x86_meaning::{Cpu, Stop};
use x86_types::Instr;

/// The effect of an instruction behind which the next one stands at an address; or the end to which its loads or its computation
/// come.
pub(crate) fn effect(instr: &Instr, next: u32, cpu: &Cpu, mem: &Pages) -> Result<Effect, Stop>
    ensures { effect_seen_if result ≡ spec.effect_read (transfers.transfer machine_naming instr.now (registers_of cpu.now.regs)) instr.now next (processor_of cpu.now) (memory_in mem.now) }
{
    match transfer(instr, cpu) {
        None => Err(Stop::Unspecified),
        Some(transfer) => match values(transfer.reads, cpu, mem) {
            None => Err(Stop::MemoryFault),
            Some(values) => match compute(instr, next, cpu.flags, values) {
                Err(stop) => Err(stop),
                Ok(computed) => Ok(written(transfer.writes, computed, cpu)),
            },
        },
    }
}

// What is computed is written.
fn written(writes: Writes, computed: Computed, cpu: &Cpu) -> Effect
    ensures { effect_seen result ≡ effects.all_written (writes_of writes) (values_of computed.values) (record { cpu = record { regs = registers_of cpu.now.regs; flags = computed.flags }; stores = []; way = way_of computed.way }) }
{
    let mut effect = Effect {
        regs: cpu.regs,
        flags: computed.flags,
        store: None,
        way: computed.way,
    };
    write_all(writes, computed.values, &mut effect);
    effect
}
