// Straight runs.
ghost use Rattle.std.specs.Prelude.{◌≡◌, IfOk};
ghost use Rattle.plan_types.specs.FoundCode.{run_in};
ghost use Rattle.plan_types.specs.Straight as spec;

use crate::IndexedImage;
use image::Image;
use plan_types::PlaceList;
use std::alloc::{AllocError, Global};
use x86_types::Instr;

/// The most instructions of a run.
const MOST: usize = 32_769;

/// Whether a straight run ends behind an instruction: behind JMP of either form, and behind RET.
pub fn ends_run(instr: &Instr) -> bool
    ensures { result ≡ spec.ends_run instr.now }
{
    matches!(
        instr,
        Instr::Jmp { .. } | Instr::JmpTo { .. } | Instr::Ret { .. }
    )
}

impl<'a> IndexedImage<'a> {
    /// The straight run from an address, at most so many instructions of it.
    pub fn run_up_to(
        &self,
        alloc: Global,
        leader: u32,
        most: usize,
    ) -> Result<PlaceList, AllocError>
        ensures run { IfOk result (λ r. r ≡ run_in self.now most leader) }
    {
        let mut run = Vec::new(alloc);
        let mut at = leader;
        let mut left = most;
        while left > 0 {
            left -= 1;
            let Some(place) = self.place_at(at) else {
                return Ok(PlaceList::new(run));
            };
            run.push(place)?;
            if ends_run(&place.instr) {
                return Ok(PlaceList::new(run));
            }
            at += u32::from(place.len);
        }
        Ok(PlaceList::new(run))
    }

    /// The straight run from an address, at most 32,769 instructions of it.
    pub fn run_of(&self, alloc: Global, leader: u32) -> Result<PlaceList, AllocError>
        ensures run { IfOk result (λ r. r ≡ run_in self.now 32769 leader) }
    {
        self.run_up_to(alloc, leader, MOST)
    }
}

/// The straight run from an address of an image, at most 32,769 instructions of it. It indexes the image first; for more than one
/// run index it once, with [`IndexedImage`].
pub fn run_of(alloc: Global, image: &Image, leader: u32) -> Result<PlaceList, AllocError>
    ensures run { IfOk result (λ r. r ≡ run_in image.now 32769 leader) }
{
    let indexed = IndexedImage::new(alloc, image)?;
    indexed.run_of(alloc, leader)
}
