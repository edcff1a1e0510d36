// The unit of one instruction: a block that sets the registers and flags, the block of the instruction with its list and way, and the further
// blocks of the way. Nothing is found behind the instruction, so each way of the unit leaves by a jump.
use crate::storing::{loading_ops, store_all};
use flag_ir::{Block, BlockList, Exit, OpList, ProcList, Unit};
use lift_core::{exit_of, lift};
use plan_types::{AddressList, Found, PlaceList, TableList};
use std::alloc::{AllocError, Global};
use step_states::CODE;
use whole_code::{WayBlocks, way_blocks};
use x86_meaning::Cpu;
use x86_types::Instr;

/// The address of the first block, to which no state jumps.
pub const ENTRY: u32 = 0x7FFF_F000;

fn nothing_found(alloc: Global) -> Found {
    Found {
        code: PlaceList::new(Vec::new(alloc)),
        procs: AddressList::new(Vec::new(alloc)),
        tables: TableList::new(Vec::new(alloc)),
    }
}

fn way_of(alloc: Global, instr: &Instr, len: u8) -> Result<WayBlocks, AllocError> {
    let list = lift(alloc, instr, CODE, len)?;
    let ops = Vec::from_slice(alloc, list.as_slice())?;
    let found = nothing_found(alloc);
    let way = exit_of(instr, CODE, len);
    way_blocks(alloc, &found, 2, OpList::new(ops), way)
}

// The block, which stores the registers and flags before it jumps.
fn storing(block: Block) -> Result<Block, AllocError> {
    let Block {
        number,
        at,
        ops,
        exit,
    } = block;
    let mut ops = ops.into_vec();
    if let Exit::Jump { .. } = exit {
        store_all(&mut ops)?;
    }
    Ok(Block {
        number,
        at,
        ops: OpList::new(ops),
        exit,
    })
}

fn first_block(alloc: Global, cpu: &Cpu) -> Result<Block, AllocError> {
    let ops = loading_ops(alloc, cpu)?;
    Ok(Block {
        number: 0,
        at: ENTRY,
        ops: OpList::new(ops),
        exit: Exit::Go(1),
    })
}

/// The unit of an instruction from a state on.
pub fn unit_of(alloc: Global, cpu: &Cpu, instr: &Instr, len: u8) -> Result<Unit, AllocError> {
    let WayBlocks { ops, exit, further } = way_of(alloc, instr, len)?;
    let mut blocks = Vec::new(alloc);
    blocks.push(first_block(alloc, cpu)?)?;
    let block = Block {
        number: 1,
        at: 0,
        ops,
        exit,
    };
    blocks.push(storing(block)?)?;
    for block in further {
        blocks.push(storing(block)?)?;
    }
    Ok(Unit {
        lowered: false,
        whole: BlockList::new(blocks),
        procs: ProcList::new(Vec::new(alloc)),
    })
}
