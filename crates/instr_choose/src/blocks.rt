// The blocks of named code.
ghost use Rattle.std.specs.Prelude.{◌≡◌, true, All, IfOk};
ghost use Rattle.flag_ir.specs.Form.{IsInForm};
ghost use Rattle.flag_ir.specs.Shape.{IsWellShaped};
ghost use Rattle.instr_choose.specs.Blocks.{BlockHasNames, OpHasNames, UnitHasNames, choose_block, choose_blocks};
ghost use Rattle.instr_choose.specs.Choosing.{Chooses};
ghost use Rattle.instr_choose.specs.Lists.{choose_ops};
ghost use Rattle.instr_choose.specs.Words.{BlockFits, OpFits};

use crate::laws::chosen_law;
use crate::operations::{choose_exit, choose_op};
use flag_ir::{Block, Op, Unit};
use named_code::{VBlock, VCode, VInstr, VInstrList};
use std::alloc::{AllocError, Global};

#[tactic(auto, using(crate::proofs::Growing::choose_ops_none))]
fn choose_ops(alloc: Global, ops: &[Op]) -> Result<Vec<VInstr>, AllocError>
    requires { All OpHasNames ops.now }
    ensures list { IfOk result (λ code. code.items ≡ choose_ops ops.now) }
    ensures words { IfOk result (λ _. All OpFits ops.now) }
{
    let mut code = Vec::new(alloc);
    for op in ops {
        choose_op(alloc, &mut code, *op)?;
    }
    Ok(code)
}

fn choose_block(alloc: Global, block: &Block) -> Result<VBlock, AllocError>
    requires { BlockHasNames block.now }
    ensures block { IfOk result (λ chosen. chosen ≡ choose_block block.now) }
    ensures words { IfOk result (λ _. BlockFits block.now) }
{
    let mut code = choose_ops(alloc, block.ops.as_slice())?;
    choose_exit(alloc, &mut code, block.exit)?;
    Ok(VBlock {
        number: block.number,
        at: block.at,
        code: VInstrList::new(code),
    })
}

fn choose_blocks(alloc: Global, unit: &[Block]) -> Result<VCode, AllocError>
    requires { All BlockHasNames unit.now }
    ensures blocks { IfOk result (λ code. code ≡ choose_blocks unit.now) }
    ensures words { IfOk result (λ _. All BlockFits unit.now) }
{
    let mut blocks = Vec::new(alloc);
    for block in unit {
        blocks.push(choose_block(alloc, block)?)?;
    }
    Ok(VCode::new(blocks))
}

/// The named code of a lowered unit: a block for each of its blocks, with the same number and the same old address. The registers
/// live in the names 0 to 7, the flags in 8 to 12, and the temporaries in those from 13 on. By turns it does what the unit does; it
/// ends outside where the unit stops. It can be placed with its names in cells. Err where memory runs out.
#[tactic(auto, using(crate::proofs::Chosen::of_blocks))]
pub fn choose(alloc: Global, unit: &Unit) -> Result<VCode, AllocError>
    requires form { IsInForm unit.now }
    requires shape { IsWellShaped unit.now }
    requires lowered { unit.now.lowered ≡ true }
    requires temps { UnitHasNames unit.now }
    ensures blocks { IfOk result (λ code. code ≡ choose_blocks unit.now.whole) }
    ensures chooses { IfOk result (Chooses unit.now) }
{
    chosen_law();
    choose_blocks(alloc, unit.whole.as_slice())
}
