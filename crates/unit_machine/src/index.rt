// The blocks of the whole part by their old addresses.
ghost use Rattle.std.specs.Prelude.{◌≡◌, ℕ, IfOk, OnOk};
ghost use Rattle.unit_machine.specs.Indexing.{IsIndexOf, first_place, place_in, placed};

use flag_ir::Block;
use std::alloc::{AllocError, Global};
use std::collections::BTreeMap;

/// The place in a list of blocks of the first one at each old address but 0.
#[derive(Drop)]
pub(crate) struct BlockIndex {
    places: BTreeMap<u32, usize>,
}

impl BlockIndex {
    // Adds a block that stands behind those that were added.
    fn add(&mut self, at: u32, place: usize) -> Result<(), AllocError>
        ensures { OnOk result ((a : ℕ) → place_in self.new a ≡ first_place (place_in self.old a) (placed a at place)) }
    {
        if at != 0 && !self.places.contains_key(&at) {
            self.places.insert(at, place)?;
        }
        Ok(())
    }

    /// The place of the first block that begins a turn at an old address.
    pub(crate) fn find(&self, at: u32) -> Option<usize>
        ensures { result ≡ place_in self.now at }
    {
        self.places.get(&at).copied()
    }
}

/// Makes the index of some blocks.
#[tactic(auto, using(crate::proofs::Indexing::indexed_none, crate::proofs::Indexing::indexed_more, crate::proofs::Indexing::indexed_all))]
pub(crate) fn index_blocks(alloc: Global, blocks: &[Block]) -> Result<BlockIndex, AllocError>
    ensures { IfOk result (IsIndexOf blocks.now) }
{
    let mut index = BlockIndex {
        places: BTreeMap::new(alloc),
    };
    for place in 0..blocks.len() {
        index.add(blocks[place].at, place)?;
    }
    Ok(index)
}
