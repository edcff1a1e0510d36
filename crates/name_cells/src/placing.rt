// The blocks of placed code.
ghost use Rattle.std.specs.Prelude.{◌≡◌, IfOk};
ghost use Rattle.name_cells.specs.CanBePlaced.{CanBePlaced};
ghost use Rattle.name_cells.specs.PlacesCode.{PlacesCode};
ghost use Rattle.name_cells.specs.Placing.{cells_of, place_block, place_instrs};

use crate::cells::{homes, name_count};
use crate::items::push_instr;
use crate::laws::placing_law;
use named_code::{HomeList, PBlock, PBlockList, PInstr, PInstrList, Placed, VBlock, VCode, VInstr};
use std::alloc::{AllocError, Global};

fn place_instrs(alloc: Global, spare: u32, instrs: &[VInstr]) -> Result<Vec<PInstr>, AllocError>
    ensures { IfOk result (λ items. items.items ≡ place_instrs spare instrs.now) }
{
    let mut items = Vec::new(alloc);
    for instr in instrs {
        push_instr(&mut items, spare, instr)?;
    }
    Ok(items)
}

fn place_block(alloc: Global, spare: u32, block: &VBlock) -> Result<PBlock, AllocError>
    ensures { IfOk result (λ placed. placed ≡ place_block spare block.now) }
{
    let items = place_instrs(alloc, spare, block.code.as_slice())?;
    Ok(PBlock {
        number: block.number,
        at: block.at,
        code: PInstrList::new(items),
    })
}

#[tactic(auto, using(std::proofs::lemmas::List::map_more))]
fn place(alloc: Global, code: &[VBlock]) -> Result<Placed, AllocError>
    requires { CanBePlaced code.now }
    ensures { IfOk result (λ placed. placed ≡ cells_of code.now) }
{
    let spare = name_count(code);
    let homes = homes(alloc, spare + 1)?;
    let mut blocks = Vec::new(alloc);
    for block in code {
        blocks.push(place_block(alloc, spare, block)?)?;
    }
    Ok(Placed {
        homes: HomeList::new(homes),
        blocks: PBlockList::new(blocks),
    })
}

/// The code with each name in its cell: the blocks in order, with the same numbers and old addresses. Each instruction stands behind a
/// MOV of each of its names from its cell to a register, and before a MOV of each back. So it does by turns what the code does, where
/// the code's accesses are apart, and a turn costs what its instructions become. Err where memory runs out.
#[tactic(auto, using(crate::proofs::PlacedCode::of_blocks))]
pub fn in_cells(alloc: Global, code: &VCode) -> Result<Placed, AllocError>
    requires { CanBePlaced code.now }
    ensures placed { IfOk result (λ placed. placed ≡ cells_of code.now) }
    ensures places { IfOk result (PlacesCode code.now) }
{
    placing_law();
    place(alloc, code.as_slice())
}
