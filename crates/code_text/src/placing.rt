// Blocks get their places, one behind the other.
ghost use Rattle.std.specs.Prelude.{◌≡◌, ◌+◌, ◌<◌, ◌≤◌, ℕ, map, length, IfOk, OnOk};
ghost use Rattle.named_code.specs.Items.{placed_block, placed_blocks};
ghost use Rattle.code_text.specs.KeptPlaces.{ArePlacesOf, GoesOn, places_in};
ghost use Rattle.code_text.specs.Placing.{AreInSpan, AreSpelled, blocks_most};

use crate::laws::size_laws;
use crate::places::CodePlaces;
use crate::sizes::{items_size, stores_size};
use named_code::{Home, PBlock, Placed};
use std::alloc::{AllocError, Global};

// Keeps the places of blocks from a place on, behind those that are kept.
fn add_blocks(
    places: &mut CodePlaces,
    homes: &[Home],
    blocks: &[PBlock],
    first: u32,
) -> Result<(), AllocError>
    requires spelled { AreSpelled (map (placed_block homes.now) blocks.now) }
    requires in_span { AreInSpan places.old.span (length places.old.words.items) (map (placed_block homes.now) blocks.now) }
    requires few { blocks_most (map (placed_block homes.now) blocks.now) ≤ 335000000 }
    requires low { first + blocks_most (map (placed_block homes.now) blocks.now) < 4294967296 }
    requires some { 0 < first }
    ensures { OnOk result (GoesOn (places_in places.old) (places_in places.new) first (map (placed_block homes.now) blocks.now)) }
{
    let mut place = first;
    let span = places.span();
    let count = places.count();
    for block in blocks {
        places.add(block.number, block.at, place)?;
        place += items_size(homes, block.code.as_slice(), span, count);
    }
    Ok(())
}

/// The places of the blocks of placed code, one behind the other from 0x60000000 on, behind the beginning that stores esp in a cell.
/// The span begins at an old address and has so many addresses. Err where memory runs out.
pub fn places_of(
    alloc: Global,
    placed: &Placed,
    cell: u32,
    span: u32,
    count: u32,
) -> Result<CodePlaces, AllocError>
    requires spelled { AreSpelled (placed_blocks placed.now) }
    requires in_span { AreInSpan span count (placed_blocks placed.now) }
    requires few { blocks_most (placed_blocks placed.now) ≤ 335000000 }
    requires fits { span + count < 4294967296 }
    ensures { IfOk result (λ places. ArePlacesOf (placed_blocks placed.now) cell span count (places_in places)) }
{
    size_laws();
    let stop = 0x6000_0000 + stores_size(cell) + 5;
    let mut places = CodePlaces::new(alloc, span, count, stop)?;
    add_blocks(
        &mut places,
        placed.homes.as_slice(),
        placed.blocks.as_slice(),
        stop + 2,
    )?;
    Ok(places)
}
