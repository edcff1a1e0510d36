// What the way of an instruction makes: the exit of its block, and the further blocks that it takes.
ghost use Rattle.std.specs.Prelude.{◌≡◌, [], IfOk};
ghost use Rattle.whole_code.specs.Building.{GoesOn, MakesBranch, IsRepeat, MakesWay};

use crate::numbers::{block_number, number_after};
use crate::targets::{Targets, targets_of};
use flag_ir::{Block, Exit, OpList, Term};
use lift_core::Way;
use plan_types::{Found, place_at};
use std::alloc::{AllocError, Global};

/// The operations and the exit of the block of an instruction, and the further blocks that its way takes.
#[derive(Drop)]
pub struct WayBlocks {
    pub ops: OpList,
    pub exit: Exit,
    pub further: Vec<Block>,
}

// The exit to an address.
fn exit_on(found: &Found, to: u32) -> Result<Exit, AllocError>
    ensures { IfOk result (λ exit. GoesOn found.now.code exit to) }
{
    if let Some(index) = place_at(found, to) {
        return Ok(Exit::Go(block_number(index)?));
    }
    Ok(Exit::Jump { to: Term::Word(to) })
}

// A block that takes no further ones.
fn alone(alloc: Global, ops: OpList, exit: Exit) -> WayBlocks
    ensures ops { result.ops ≡ ops }
    ensures exit { result.exit ≡ exit }
    ensures further { result.further.items ≡ [] }
{
    WayBlocks {
        ops,
        exit,
        further: Vec::new(alloc),
    }
}

// A repeat: the count is tested before each iteration, and the list goes into a block of its own.
fn repeat(
    alloc: Global,
    first: u32,
    ops: OpList,
    count: Term,
    again: Term,
    targets: Targets,
) -> Result<WayBlocks, AllocError>
    ensures { IfOk result (λ made. IsRepeat first ops count again targets.yes targets.no targets.jumps.items made.ops made.exit made.further.items) }
{
    let Targets { yes, no, mut jumps } = targets;
    let mut further = Vec::new(alloc);
    further.push(Block {
        number: first,
        at: 0,
        ops,
        exit: Exit::Branch {
            test: again,
            yes,
            no,
        },
    })?;
    further.append(&mut jumps)?;
    Ok(WayBlocks {
        ops: OpList::new(Vec::new(alloc)),
        exit: Exit::Branch {
            test: count,
            yes: first,
            no,
        },
        further,
    })
}

fn branch(
    alloc: Global,
    found: &Found,
    first: u32,
    test: Term,
    yes: u32,
    no: u32,
    ops: OpList,
) -> Result<WayBlocks, AllocError>
    ensures { IfOk result (λ made. (made.ops ≡ ops) × MakesBranch found.now.code first test yes no made.exit made.further.items) }
{
    let targets = targets_of(alloc, found, first, yes, no)?;
    Ok(WayBlocks {
        ops,
        exit: Exit::Branch {
            test,
            yes: targets.yes,
            no: targets.no,
        },
        further: targets.jumps,
    })
}

/// The block of an instruction with this list and this way, among found code, where the first further block gets the number `first`. An
/// address at which nothing is found is left by a jump. Err where memory runs out, or where there would be more than 2^32 blocks.
pub fn way_blocks(
    alloc: Global,
    found: &Found,
    first: u32,
    ops: OpList,
    way: Way,
) -> Result<WayBlocks, AllocError>
    ensures { IfOk result (λ made. MakesWay found.now.code first ops way made.ops made.exit made.further.items) }
{
    match way {
        Way::On(to) => {
            let exit = exit_on(found, to)?;
            Ok(alone(alloc, ops, exit))
        }
        Way::Either(test, yes, no) => branch(alloc, found, first, test, yes, no, ops),
        Way::Repeat(count, again, here, next) => {
            let behind = number_after(first, 1)?;
            let targets = targets_of(alloc, found, behind, here, next)?;
            repeat(alloc, first, ops, count, again, targets)
        }
        Way::To(to) | Way::Back(to) => Ok(alone(alloc, ops, Exit::Jump { to })),
    }
}
