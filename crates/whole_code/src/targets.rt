// The numbers of the addresses to which a block branches.
ghost use Rattle.std.specs.Prelude.{◌≡◌, IfOk};
ghost use Rattle.whole_code.specs.Building.{jump_to, GetsNumber, AreTargets};

use crate::numbers::{block_number, number_after};
use flag_ir::{Block, Exit, OpList, Term};
use plan_types::{Found, place_at};
use std::alloc::{AllocError, Global};

// The numbers of two addresses, and the blocks that only jump to those of them at which no instruction is found.
#[derive(Drop)]
pub(crate) struct Targets {
    pub(crate) yes: u32,
    pub(crate) no: u32,
    pub(crate) jumps: Vec<Block>,
}

fn jump_block(alloc: Global, number: u32, to: u32) -> Block
    ensures { result ≡ jump_to number to }
{
    Block {
        number,
        at: 0,
        ops: OpList::new(Vec::new(alloc)),
        exit: Exit::Jump { to: Term::Word(to) },
    }
}

// The number of an address. Where no instruction is found there, a block that only jumps there is added.
fn number_of(
    alloc: Global,
    found: &Found,
    first: u32,
    jumps: &mut Vec<Block>,
    to: u32,
) -> Result<u32, AllocError>
    ensures { IfOk result (λ number. GetsNumber found.now.code first jumps.old.items jumps.new.items to number) }
{
    if let Some(index) = place_at(found, to) {
        return block_number(index);
    }
    let number = number_after(first, jumps.len())?;
    jumps.push(jump_block(alloc, number, to))?;
    Ok(number)
}

// The targets of a branch, where the first block that is made for it gets the number `first`.
pub(crate) fn targets_of(
    alloc: Global,
    found: &Found,
    first: u32,
    yes: u32,
    no: u32,
) -> Result<Targets, AllocError>
    ensures { IfOk result (λ targets. AreTargets found.now.code first yes no targets.yes targets.no targets.jumps.items) }
{
    let mut jumps = Vec::new(alloc);
    let yes_number = number_of(alloc, found, first, &mut jumps, yes)?;
    let no_number = number_of(alloc, found, first, &mut jumps, no)?;
    Ok(Targets {
        yes: yes_number,
        no: no_number,
        jumps,
    })
}
