// Exits of blocks.
ghost use Rattle.std.specs.Prelude.{◌≡◌, ◌==◌, ℕ, [], length, position};
ghost use Rattle.mem_pages.specs.Contents.{memory_in};
ghost use Rattle.flag_ir.specs.declared.block.Exit.TheVariants as exits;
ghost use Rattle.flag_ir.specs.Entering.{index_at};
ghost use Rattle.flag_ir.specs.Form.{IsExit, IsFramelessExit, IsTerm};
ghost use Rattle.unit_machine.specs.Indexing.{IsIndexOf};
ghost use Rattle.unit_machine.specs.Leaving.{AreNumbered, IsThere, LeavesBy};

use crate::UnitEnd;
use crate::index::BlockIndex;
use crate::values::Values;
use flag_ir::{Block, Exit, Term, Unit};
use mem_pages::{Pages, RunEnd};
use x86_values::known;

/// What an exit comes to: the run goes on before the block with this index, or it ends.
#[derive(Clone, Copy, Debug)]
pub(crate) enum Left {
    To(usize),
    Ended(UnitEnd),
}

// The index of the first block with this address.
fn first_at(blocks: &[Block], at: u32) -> Option<usize>
    ensures { result ≡ position (λ b. b.at == at) blocks.now }
{
    blocks.iter().position(|block| block.at == at)
}

/// The index of the first block that begins a turn at an old address.
#[tactic(auto, unfolding(flag_ir::specs::Entering::index_at))]
pub(crate) fn find_block(blocks: &[Block], at: u32) -> Option<usize>
    ensures { result ≡ index_at at blocks.now }
{
    if at == 0 { None } else { first_at(blocks, at) }
}

// To a block by its number.
fn go(unit: &Unit, number: u32, values: &Values, pages: &Pages) -> Left
    requires form { IsExit 0 (length unit.now.whole) unit.now.procs (exits.Go number) }
    requires numbered { AreNumbered unit.now }
    ensures leaves { (turn : ℕ) → LeavesBy unit.now turn (exits.Go number) result values.now (memory_in pages.now) }
    ensures there { IsThere unit.now result }
{
    Left::To(number as usize)
}

fn branch(unit: &Unit, test: Term, yes: u32, no: u32, values: &Values, pages: &Pages) -> Left
    requires form { IsExit 0 (length unit.now.whole) unit.now.procs (exits.Branch test yes no) }
    requires numbered { AreNumbered unit.now }
    ensures leaves { (turn : ℕ) → LeavesBy unit.now turn (exits.Branch test yes no) result values.now (memory_in pages.now) }
    ensures there { IsThere unit.now result }
{
    match known(values.term(test)) {
        None => Left::Ended(UnitEnd::Run(RunEnd::Unspecified)),
        Some(0) => Left::To(no as usize),
        Some(_) => Left::To(yes as usize),
    }
}

fn jump(unit: &Unit, index: &BlockIndex, to: Term, values: &Values, pages: &Pages) -> Left
    requires form { IsExit 0 (length unit.now.whole) unit.now.procs (exits.Jump to) }
    requires procs { unit.now.procs ≡ [] }
    requires indexed { IsIndexOf unit.now.whole index.now }
    ensures leaves { (turn : ℕ) → LeavesBy unit.now turn (exits.Jump to) result values.now (memory_in pages.now) }
    ensures there { IsThere unit.now result }
{
    match known(values.term(to)) {
        None => Left::Ended(UnitEnd::Run(RunEnd::Unspecified)),
        Some(at) => match index.find(at) {
            None => Left::Ended(UnitEnd::Stopped(at)),
            Some(place) => Left::To(place),
        },
    }
}

// At the turn's old address, or in a lowered unit at the word of memory.
fn stop(unit: &Unit, turn: u32, values: &Values, pages: &Pages) -> Left
    ensures leaves { LeavesBy unit.now turn exits.Stop result values.now (memory_in pages.now) }
    ensures there { IsThere unit.now result }
{
    if !unit.lowered {
        return Left::Ended(UnitEnd::Stopped(turn));
    }
    match pages.load(0x7500_0004, 4) {
        None => Left::Ended(UnitEnd::Run(RunEnd::Unspecified)),
        Some(word) => match known(word) {
            None => Left::Ended(UnitEnd::Run(RunEnd::Unspecified)),
            Some(at) => Left::Ended(UnitEnd::Stopped(at)),
        },
    }
}

/// Leaves a block by an exit that needs no frame, in the turn of a block with this old address.
pub(crate) fn leave(
    unit: &Unit,
    index: &BlockIndex,
    turn: u32,
    exit: Exit,
    values: &Values,
    pages: &Pages,
) -> Left
    requires form { IsExit 0 (length unit.now.whole) unit.now.procs exit }
    requires frameless { IsFramelessExit exit }
    requires numbered { AreNumbered unit.now }
    requires procs { unit.now.procs ≡ [] }
    requires indexed { IsIndexOf unit.now.whole index.now }
    ensures leaves { LeavesBy unit.now turn exit result values.now (memory_in pages.now) }
    ensures there { IsThere unit.now result }
{
    match exit {
        Exit::Go(number) => go(unit, number, values, pages),
        Exit::Branch { test, yes, no } => branch(unit, test, yes, no, values, pages),
        Exit::Jump { to } => jump(unit, index, to, values, pages),
        Exit::Fault => Left::Ended(UnitEnd::Run(RunEnd::MemoryFault)),
        Exit::Stop => stop(unit, turn, values, pages),
        Exit::CallProc { .. } => Left::Ended(UnitEnd::Run(RunEnd::Outside)),
        Exit::Return => Left::Ended(UnitEnd::Run(RunEnd::Outside)),
    }
}
