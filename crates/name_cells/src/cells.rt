// The cells of names, and how many names there are.
ghost use Rattle.std.specs.Prelude.{◌≡◌, ◌<◌, ◌≤◌, All, fold, IfOk};
ghost use Rattle.name_cells.specs.CanBePlaced.{CanBePlaced, IsBlockPlaceable, IsPlaceable};
ghost use Rattle.name_cells.specs.Cells.{cell_at, counted_block, counted_instr, counted_slot, homes_of, name_count};

use named_code::{Home, Slot, VBlock, VInstr};
use std::alloc::{AllocError, Global};

/// The address of a name's cell.
fn cell_at(name: u32) -> u32
    requires { name < 1540096 }
    ensures { result ≡ cell_at name }
{
    0x7522_0000 + 4 * name
}

/// The homes of so many names.
#[tactic(auto, using(crate::proofs::Growing::homes_more))]
pub(crate) fn homes(alloc: Global, count: u32) -> Result<Vec<Home>, AllocError>
    requires { count ≤ 1540096 }
    ensures { IfOk result (λ homes. homes.items ≡ homes_of count) }
{
    let mut homes = Vec::new(alloc);
    for name in 0..count {
        homes.push(Home {
            register: None,
            cell: cell_at(name),
        })?;
    }
    Ok(homes)
}

fn counted_slot(count: u32, slot: Slot) -> u32
    requires small { count ≤ 1540095 }
    requires slot { IsPlaceable slot }
    ensures count { result ≡ counted_slot count slot }
    ensures small { result ≤ 1540095 }
{
    match slot {
        Slot::Fixed(_) => count,
        Slot::Name(name) => count.max(name + 1),
    }
}

#[tactic(auto, using(std::proofs::lemmas::List::Sums::fold_more))]
fn counted_slots(count: u32, slots: &[Slot]) -> u32
    requires small { count ≤ 1540095 }
    requires slots { All IsPlaceable slots.now }
    ensures count { result ≡ fold counted_slot count slots.now }
    ensures small { result ≤ 1540095 }
{
    let mut total = count;
    for slot in slots {
        total = counted_slot(total, *slot);
    }
    total
}

#[tactic(auto, using(std::proofs::lemmas::List::Sums::fold_more))]
fn counted_instrs(count: u32, instrs: &[VInstr]) -> u32
    requires small { count ≤ 1540095 }
    requires instrs { All (λ x. All IsPlaceable x.slots) instrs.now }
    ensures count { result ≡ fold counted_instr count instrs.now }
    ensures small { result ≤ 1540095 }
{
    let mut total = count;
    for instr in instrs {
        total = counted_slots(total, instr.slots.as_slice());
    }
    total
}

/// How many names blocks have: one more than the greatest.
#[tactic(auto, using(std::proofs::lemmas::List::Sums::fold_more))]
pub(crate) fn name_count(blocks: &[VBlock]) -> u32
    requires { All (λ b. All (λ x. All IsPlaceable x.slots) b.code) blocks.now }
    ensures count { result ≡ name_count blocks.now }
    ensures small { result ≤ 1540095 }
{
    let mut total = 0;
    for block in blocks {
        total = counted_instrs(total, block.code.as_slice());
    }
    total
}
