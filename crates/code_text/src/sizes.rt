// How many bytes items have.
ghost use Rattle.std.specs.Prelude.{◌≡◌, ◌+◌, ◌≤◌, ◌<◌, All, leb, length, map};
ghost use Rattle.x86_types.specs.declared.instr.Instr.TheVariants.{JmpTo};
ghost use Rattle.x86_grammar.specs.Fields.{HasSpelling};
ghost use Rattle.x86_encode.specs.Choice.{best};
ghost use Rattle.named_code.specs.Items.{placed_block, placed_blocks, placed_item};
ghost use Rattle.code_text.specs.KeptPlaces.{room_left, sized};
ghost use Rattle.code_text.specs.Placing.{AreSpelled, blocks_most, instr_size, items_most, items_size, most_bytes};
ghost use Rattle.code_text.specs.Sizes.{AreItemsSpelled};
ghost use Rattle.code_text.specs.Texts.{stores_text};

use crate::instrs::{
    clear_esp, compare_count, enter, instr_of, less_span, look_up, store_esp, take_address,
};
use crate::laws::size_laws;
use named_code::{Home, PBlock, PInstr, Placed};
use x86_encode::{encode, encode_wide};
use x86_types::{Instr, Rm};

// How many bytes an instruction's best spelling has.
fn best_size(instr: &Instr) -> u32
    requires { HasSpelling instr.now }
    ensures size { result ≡ length (best instr.now) }
    ensures short { result ≤ 11 }
{
    let mut text = [0; 16];
    encode(instr, &mut text) as u32
}

// How many bytes a jump to an old address has.
#[tactic(auto, using(crate::proofs::InstrSizes::table_parts))]
fn table_size(span: u32, count: u32, to: Rm) -> u32
    requires { HasSpelling (JmpTo to) }
    ensures size { result ≡ instr_size (sized span count) (JmpTo to) }
    ensures short { result ≤ 61 }
{
    let before = best_size(&take_address(to))
        + best_size(&less_span(span))
        + best_size(&compare_count(count));
    before + 6 + best_size(&look_up()) + best_size(&enter())
}

/// How many bytes an instruction has, where the span of old addresses has so many addresses.
pub(crate) fn instr_size(span: u32, count: u32, instr: &Instr) -> u32
    requires { HasSpelling instr.now }
    ensures size { result ≡ instr_size (sized span count) instr.now }
    ensures short { result ≤ most_bytes instr.now }
{
    size_laws();
    match *instr {
        Instr::Jmp { .. } => 5,
        Instr::Jcc { .. } => 6,
        Instr::JmpTo { to } => table_size(span, count, to),
        _ => best_size(instr),
    }
}

/// How many bytes an instruction has at most, wherever it stands.
pub(crate) fn most_bytes(instr: &Instr) -> u32
    requires { HasSpelling instr.now }
    ensures most { result ≡ most_bytes instr.now }
    ensures short { result ≤ 128 }
{
    if let Instr::JmpTo { .. } = instr {
        return 128;
    }
    let mut text = [0; 16];
    encode_wide(instr, &mut text) as u32
}

/// How many bytes the beginning has up to its jump.
#[tactic(auto, using(crate::proofs::InstrSizes::stores_parts))]
pub(crate) fn stores_size(cell: u32) -> u32
    ensures size { result ≡ length (stores_text cell) }
    ensures short { result ≤ 33 }
{
    best_size(&store_esp(0x7500_0000)) + best_size(&store_esp(cell)) + best_size(&clear_esp())
}

/// How many bytes items have, with the stop behind the last.
pub(crate) fn items_size(homes: &[Home], items: &[PInstr], span: u32, count: u32) -> u32
    requires spelled { AreItemsSpelled (map (placed_item homes.now) items.now) }
    requires few { items_most (map (placed_item homes.now) items.now) < 4294967296 }
    ensures size { result ≡ items_size (sized span count) (map (placed_item homes.now) items.now) }
    ensures few { result ≤ items_most (map (placed_item homes.now) items.now) }
{
    let mut size = 0;
    for item in items {
        size += instr_size(span, count, &instr_of(homes, item));
    }
    size + 2
}

// What is left of room for so many bytes behind items, where it is enough.
fn room_behind(homes: &[Home], items: &[PInstr], room: u32) -> Option<u32>
    requires { AreItemsSpelled (map (placed_item homes.now) items.now) }
    ensures { result ≡ room_left (items_most (map (placed_item homes.now) items.now)) room }
{
    let mut left = room;
    for item in items {
        let most = most_bytes(&instr_of(homes, item));
        if left < most {
            return None;
        }
        left -= most;
    }
    if left < 2 { None } else { Some(left - 2) }
}

// Whether blocks have so much room.
fn have_room(homes: &[Home], blocks: &[PBlock], room: u32) -> bool
    requires { AreSpelled (map (placed_block homes.now) blocks.now) }
    ensures { result ≡ leb (blocks_most (map (placed_block homes.now) blocks.now)) room }
{
    let mut left = room;
    for block in blocks {
        match room_behind(homes, block.code.as_slice(), left) {
            Some(rest) => left = rest,
            None => return false,
        }
    }
    true
}

/// Whether the blocks of placed code have room: 335,000,000 bytes at most, whatever their places are, where a jump to an old address
/// counts 128.
pub fn has_room(placed: &Placed) -> bool
    requires spelled { AreSpelled (placed_blocks placed.now) }
    ensures { result ≡ leb (blocks_most (placed_blocks placed.now)) 335000000 }
{
    have_room(
        placed.homes.as_slice(),
        placed.blocks.as_slice(),
        335_000_000,
    )
}
