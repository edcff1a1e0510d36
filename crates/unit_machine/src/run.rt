// Runs of units.
ghost use Rattle.std.specs.Prelude.{◌≡◌, ◌≤◌, ℕ, List};
ghost use Rattle.traces.specs.Trace as trace;
ghost use Rattle.memory.specs.Memory.{Memory, with_stack};
ghost use Rattle.mem_pages.specs.Contents.{memory_in};
ghost use Rattle.sw_host.specs.Told.{Tells};
ghost use Rattle.flag_ir.specs.Form.{IsInForm, IsLoweredInForm};
ghost use Rattle.flag_ir.specs.UnitRun.{next, unit_run};
ghost use Rattle.unit_machine.specs.Indexing.{IsIndexOf};
ghost use Rattle.unit_machine.specs.Moving.{StandsInBlock, IsRunnable, state_in};
ghost use Rattle.unit_machine.specs.Running.{RunsTo};

use crate::UnitEnd;
use crate::index::{BlockIndex, index_blocks};
use crate::leave::find_block;
use crate::step::{Position, step};
use crate::values::first_values;
use flag_ir::{Unit, UnitMeaning};
use mem_pages::{Pages, RunEnd};
use std::alloc::{AllocError, Global};
use sw_host::Host;
use traces::{run_laws, trace_laws};

// Runs it on from where it stands, by the index of its blocks.
fn run_indexed<H: Host>(
    alloc: Global,
    unit: &Unit,
    index: &BlockIndex,
    at: &mut Position,
    pages: &mut Pages,
    host: &mut H,
    budget: u64,
) -> Result<UnitEnd, AllocError>
    requires runnable { IsRunnable unit.now }
    requires indexed { IsIndexOf unit.now.whole index.now }
    requires placed { StandsInBlock unit.now at.old }
    ensures runs { Tells (H.told host.old) (H.told host.new) (RunsTo (λ left. trace.run (next unit.now) (state_in unit.now at.old (memory_in pages.old) left)) budget result) }
    ensures faults { H.faults host.old ≤ H.faults host.new }
{
    trace_laws();
    run_laws::<UnitMeaning>();
    for i in 0..budget {
        match step(alloc, unit, index, at, pages, host) {
            Err(error) => return Err(error),
            Ok(None) => {}
            Ok(Some(end)) => return Ok(end),
        }
    }
    Ok(UnitEnd::Run(RunEnd::Spent))
}

// The same; the index is made first.
fn run_on<H: Host>(
    alloc: Global,
    unit: &Unit,
    at: &mut Position,
    pages: &mut Pages,
    host: &mut H,
    budget: u64,
) -> Result<UnitEnd, AllocError>
    requires runnable { IsRunnable unit.now }
    requires placed { StandsInBlock unit.now at.old }
    ensures runs { Tells (H.told host.old) (H.told host.new) (RunsTo (λ left. trace.run (next unit.now) (state_in unit.now at.old (memory_in pages.old) left)) budget result) }
    ensures faults { H.faults host.old ≤ H.faults host.new }
{
    trace_laws();
    run_laws::<UnitMeaning>();
    match index_blocks(alloc, unit.whole.as_slice()) {
        Err(error) => Err(error),
        Ok(index) => run_indexed(alloc, unit, &index, at, pages, host, budget),
    }
}

/// Runs a unit that is in form and needs no frame from a jump to an old address on, over a memory to which the stack is added, for at most so
/// many operations and exits. The answer is its end, or `Spent`.
pub fn run_unit<H: Host>(
    alloc: Global,
    unit: &Unit,
    pages: &mut Pages,
    entry: u32,
    esp0: u32,
    host: &mut H,
    budget: u64,
) -> Result<UnitEnd, AllocError>
    requires form { IsInForm unit.now }
    requires frameless { IsLoweredInForm unit.now }
    ensures runs { (m : Memory) (stack : List ℕ) → memory_in pages.old ≡ with_stack esp0 stack m → Tells (H.told host.old) (H.told host.new) (RunsTo (unit_run unit.now m entry esp0 stack) budget result) }
    ensures faults { H.faults host.old ≤ H.faults host.new }
{
    run_laws::<UnitMeaning>();
    match find_block(unit.whole.as_slice(), entry) {
        None => Ok(UnitEnd::Stopped(entry)),
        Some(index) => {
            let mut at = Position {
                values: first_values(alloc, esp0),
                turn: 0,
                block: index,
                op: 0,
            };
            run_on(alloc, unit, &mut at, pages, host, budget)
        }
    }
}
