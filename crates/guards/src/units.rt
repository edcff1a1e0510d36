// Units whose accesses stay outside the private area.
ghost use Rattle.std.specs.Prelude.{◌≡◌, ◌&&◌, ◌<◌, ◌^◌, IfOk, [], false, map, All};
ghost use Rattle.flag_ir.specs.Form.{IsInForm};
ghost use Rattle.flag_ir.specs.Shape.{IsWellShaped};
ghost use Rattle.guards.specs.Guarding.{guarded_block, has_loose_stop, is_stop, turn_stores, AreAddresses};
ghost use Rattle.guards.specs.Lowering.{Lowers};
ghost use Rattle.guards.specs.Renumbering.{WritesFewTemps};

use crate::laws::lowering_law;
use crate::operations::guarded_ops;
use crate::renumbering::renumbered_blocks;
use flag_ir::{Block, BlockList, Exit, Op, OpList, ProcList, Term, Unit};
use std::alloc::{AllocError, Global};

fn is_stop(exit: &Exit) -> bool
    ensures { result ≡ is_stop exit.now }
{
    matches!(exit, Exit::Stop)
}

/// Whether a block that begins no turn stops.
fn has_loose_stop(blocks: &[Block]) -> bool
    ensures { result ≡ has_loose_stop blocks.now }
{
    for block in blocks {
        if block.at == 0 && is_stop(&block.exit) {
            return true;
        }
    }
    false
}

/// The store of the turn's old address, where the block needs one.
fn turn_stores(alloc: Global, loose: bool, at: u32, exit: &Exit) -> Result<Vec<Op>, AllocError>
    ensures { IfOk result (λ ops. ops.items ≡ turn_stores loose at exit.now) }
{
    let mut ops = Vec::new(alloc);
    if at != 0 && (loose || is_stop(exit)) {
        ops.push(Op::Store {
            size: 4,
            at: Term::Word(0x7500_0004),
            from: Term::Word(at),
        })?;
    }
    Ok(ops)
}

fn guarded_block(alloc: Global, loose: bool, block: &Block) -> Result<Block, AllocError>
    ensures guarded { IfOk result (λ new. new ≡ guarded_block loose block.now) }
    ensures address { IfOk result (λ new. new.at < 2 ^ 32) }
{
    let at = block.at;
    let mut ops = turn_stores(alloc, loose, at, &block.exit)?;
    guarded_ops(&mut ops, block.ops.as_slice())?;
    Ok(Block {
        number: block.number,
        at,
        ops: OpList::new(ops),
        exit: block.exit,
    })
}

pub(crate) fn guarded_blocks(
    alloc: Global,
    loose: bool,
    blocks: &[Block],
) -> Result<BlockList, AllocError>
    ensures guarded { IfOk result (λ new. new ≡ map (guarded_block loose) blocks.now) }
    ensures addresses { IfOk result (λ new. AreAddresses new) }
{
    let mut new = Vec::new(alloc);
    for block in blocks {
        new.push(guarded_block(alloc, loose, block)?)?;
    }
    Ok(BlockList::new(new))
}

/// The unit in which no access of the program starts in the private area, 0x60000000 up to 0x7C000000: one that would faults, and a
/// system call's buffer that would is passed as address 0. A stop finds the old address of its turn at 0x75000004.
pub fn lower(alloc: Global, unit: Unit) -> Result<Unit, AllocError>
    requires form { IsInForm unit }
    requires shape { IsWellShaped unit }
    requires open { unit.lowered ≡ false }
    requires whole { unit.procs ≡ [] }
    requires few { All WritesFewTemps unit.whole }
    ensures { IfOk result (Lowers unit) }
{
    lowering_law();
    let blocks = renumbered_blocks(alloc, unit.whole.as_slice())?;
    let loose = has_loose_stop(&blocks);
    let whole = guarded_blocks(alloc, loose, &blocks)?;
    Ok(Unit {
        lowered: true,
        whole,
        procs: ProcList::new(Vec::new(alloc)),
    })
}
