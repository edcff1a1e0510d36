// The blocks of a whole program.
ghost use Rattle.std.specs.Prelude.{IfOk};
ghost use Rattle.whole_code.specs.Building.{lifting_of_places, MakesPlace, AreBlocksOf};

use crate::lifted::{Lifted, lift_place};
use crate::numbers::{block_number, number_after};
use crate::ways::{WayBlocks, way_blocks};
use flag_ir::Block;
use plan_types::{Found, Place};
use std::alloc::{AllocError, Global};

// The block of a place, and the further blocks that its way takes.
#[derive(Drop)]
struct PlaceBlocks {
    block: Block,
    further: Vec<Block>,
}

fn place_blocks(
    alloc: Global,
    found: &Found,
    number: u32,
    first: u32,
    place: &Place,
) -> Result<PlaceBlocks, AllocError>
    ensures { IfOk result (λ made. MakesPlace lifting_of_places found.now.code number first place.now made.block made.further.items) }
{
    let Lifted { ops: list, way } = lift_place(alloc, place)?;
    let WayBlocks { ops, exit, further } = way_blocks(alloc, found, first, list, way)?;
    Ok(PlaceBlocks {
        block: Block {
            number,
            at: place.at,
            ops,
            exit,
        },
        further,
    })
}

// The blocks of the places, in order, and behind them the further blocks.
pub(crate) fn all_blocks(alloc: Global, found: &Found) -> Result<Vec<Block>, AllocError>
    ensures { IfOk result (λ blocks. AreBlocksOf lifting_of_places found.now.code blocks.items) }
{
    let code = found.code.as_slice();
    let first = block_number(code.len())?;
    let mut blocks = Vec::new(alloc);
    let mut further = Vec::new(alloc);
    for (index, place) in code.iter().enumerate() {
        let number = block_number(index)?;
        let next = number_after(first, further.len())?;
        let PlaceBlocks {
            block,
            further: mut more,
        } = place_blocks(alloc, found, number, next, place)?;
        blocks.push(block)?;
        further.append(&mut more)?;
    }
    blocks.append(&mut further)?;
    Ok(blocks)
}
