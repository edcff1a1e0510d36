// The bytes of laid code.
ghost use Rattle.std.specs.Prelude.{◌≡◌, ◌+◌, ◌<◌, ◌≤◌, ◌++◌, length, map, IfOk, OnOk};
ghost use Rattle.named_code.specs.Items.{placed_block, placed_blocks, placed_item};
ghost use Rattle.code_text.specs.KeptPlaces.{ArePlacesOf, code_start, place_behind, places_in};
ghost use Rattle.code_text.specs.Placing.{AreSpelled, blocks_most, items_most};
ghost use Rattle.code_text.specs.Sizes.{AreItemsSpelled};
ghost use Rattle.code_text.specs.Texts.{beginning_text, blocks_text, code_text, items_text, stores_text};

use crate::instrs::{clear_esp, instr_of, store_esp};
use crate::laws::size_laws;
use crate::places::CodePlaces;
use crate::pushing::{push_best, push_instr, push_jmp};
use named_code::{Home, PBlock, PInstr, Placed};
use std::alloc::{AllocError, Global};

// Nothing that can be run: 0F 0B.
const STOP: [u8; 2] = [0x0F, 0x0B];

// Puts items behind the text, and a stop behind the last.
fn push_items(
    out: &mut Vec<u8>,
    places: &CodePlaces,
    homes: &[Home],
    items: &[PInstr],
) -> Result<(), AllocError>
    requires spelled { AreItemsSpelled (map (placed_item homes.now) items.now) }
    requires few { length out.old.items + items_most (map (placed_item homes.now) items.now) ≤ 350000000 }
    ensures text { OnOk result (out.new.items ≡ out.old.items ++ items_text (places_in places.now) (place_behind out.old.items) (map (placed_item homes.now) items.now)) }
    ensures short { OnOk result (length out.new.items ≤ length out.old.items + items_most (map (placed_item homes.now) items.now)) }
{
    for item in items {
        push_instr(out, places, &instr_of(homes, item))?;
    }
    out.extend_from_slice(&STOP)
}

// Puts blocks behind the text.
fn push_blocks(
    out: &mut Vec<u8>,
    places: &CodePlaces,
    homes: &[Home],
    blocks: &[PBlock],
) -> Result<(), AllocError>
    requires spelled { AreSpelled (map (placed_block homes.now) blocks.now) }
    requires few { length out.old.items + blocks_most (map (placed_block homes.now) blocks.now) ≤ 350000000 }
    ensures text { OnOk result (out.new.items ≡ out.old.items ++ blocks_text (places_in places.now) (place_behind out.old.items) (map (placed_block homes.now) blocks.now)) }
    ensures short { OnOk result (length out.new.items ≤ length out.old.items + blocks_most (map (placed_block homes.now) blocks.now)) }
{
    for block in blocks {
        push_items(out, places, homes, block.code.as_slice())?;
    }
    Ok(())
}

// Puts the three instructions before the jump of the beginning behind the text.
fn push_stores(out: &mut Vec<u8>, cell: u32) -> Result<(), AllocError>
    ensures { OnOk result (out.new.items ≡ out.old.items ++ stores_text cell) }
{
    push_best(out, &store_esp(0x7500_0000))?;
    push_best(out, &store_esp(cell))?;
    push_best(out, &clear_esp())
}

// The beginning, which stores esp in a cell and jumps to the block of the entry.
fn beginning(
    alloc: Global,
    places: &CodePlaces,
    cell: u32,
    entry: u32,
) -> Result<Vec<u8>, AllocError>
    ensures text { IfOk result (λ text. text.items ≡ beginning_text (places_in places.now) code_start cell entry) }
    ensures short { IfOk result (λ text. length text.items ≤ 40) }
{
    size_laws();
    let mut out = Vec::new(alloc);
    push_stores(&mut out, cell)?;
    push_jmp(&mut out, places.old_address(entry))?;
    out.extend_from_slice(&STOP)?;
    Ok(out)
}

/// The bytes of placed code from 0x60000000 on, at its places: the beginning, which stores esp in a cell and jumps to the block of the
/// entry, and the blocks. Err where memory runs out.
pub fn code_text(
    alloc: Global,
    placed: &Placed,
    places: &CodePlaces,
    cell: u32,
    entry: u32,
) -> Result<Vec<u8>, AllocError>
    requires spelled { AreSpelled (placed_blocks placed.now) }
    requires few { blocks_most (placed_blocks placed.now) ≤ 335000000 }
    requires placed { ArePlacesOf (placed_blocks placed.now) cell (places_in places.now).span (places_in places.now).count (places_in places.now) }
    ensures text { IfOk result (λ text. text.items ≡ code_text (places_in places.now) code_start cell entry (placed_blocks placed.now)) }
    ensures few { IfOk result (λ text. length text.items ≤ blocks_most (placed_blocks placed.now) + 40) }
{
    let mut out = beginning(alloc, places, cell, entry)?;
    push_blocks(
        &mut out,
        places,
        placed.homes.as_slice(),
        placed.blocks.as_slice(),
    )?;
    Ok(out)
}
