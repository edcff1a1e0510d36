// Instructions that are kept once they were decoded, each found by its address.
ghost use Rattle.std.specs.Prelude.{◌≡◌, ◌<◌, length, map, slice_get, Some, IfOk, IfSome};
ghost use Rattle.x86_code.specs.Code.{code_of};
ghost use Rattle.x86_machine.specs.Kept.{code_by, code_segment, IsFetched, IsKeptAt};

use crate::code::{code_segment, decode_at};
use image::{Image, Segment};
use std::alloc::{AllocError, Global};
use std::marker::Model;
use x86_types::Instr;

/// How many lists there are.
const LISTS: usize = 65536;

/// The end of a list.
const END: u32 = u32::MAX;

/// An instruction, where it stands, its length, and the index of the next one of its list.
#[derive(Clone, Copy, Debug)]
pub struct KeptInstr {
    pub at: u32,
    pub instr: Instr,
    pub len: u8,
    pub next: u32,
}

/// Segments, and the instructions that were decoded from them. Each is found by its address, in one of the lists.
#[derive(Drop)]
pub struct KeptCode {
    segments: Vec<Segment>,
    kept: Vec<KeptInstr>,
    firsts: Vec<u32>,
}

impl Model for KeptCode {
    ghost use Rattle.x86_machine.specs.Kept.{KeptContents, AreRight};

    ghost Value = { KeptContents };

    ghost view = { λ c. record { segments = c.segments.items; kept = c.kept.items } };

    ghost invariant = { λ c. AreRight c.segments.items c.kept.items };
}

impl KeptCode {
    /// The code of an image, of which nothing is decoded yet.
    pub fn new(alloc: Global, image: &Image) -> Result<KeptCode, AllocError>
        ensures { IfOk result (λ c. code_by c.segments ≡ code_of image.now) }
    {
        let segments = code_segments(alloc, image.segments.as_slice())?;
        let firsts = vec![in alloc; END; LISTS]?;
        Ok(KeptCode {
            segments,
            kept: Vec::new(alloc),
            firsts,
        })
    }

    /// The instruction that stands at an address, by its index. It is decoded where it wasn't yet.
    #[inline(always)]
    pub fn fetch(&mut self, at: u32) -> Result<Option<usize>, AllocError>
        ensures same { self.new.segments ≡ self.old.segments }
        ensures fetched { IfOk result (λ found. IsFetched at found self.new) }
    {
        if let Some(index) = self.find(at) {
            return Ok(Some(index));
        }
        match decode_at(self.segments.as_slice(), at) {
            None => Ok(None),
            Some((instr, len)) => Ok(Some(self.keep(at, instr, len)?)),
        }
    }

    /// A kept instruction.
    #[inline(always)]
    pub fn get(&self, index: usize) -> &KeptInstr
        requires { index < length self.now.kept }
        ensures { slice_get self.now.kept index ≡ Some result.now }
    {
        &self.kept.as_slice()[index]
    }

    // The index of the kept instruction at an address.
    #[inline(always)]
    fn find(&self, at: u32) -> Option<usize>
        ensures { IfSome result (λ index. IsKeptAt at index self.now) }
    {
        let kept = self.kept.as_slice();
        let mut next = self.firsts.as_slice().get(list_of(at)).copied()?;
        for _ in 0..kept.len() {
            let one = kept.get(next as usize)?;
            if one.at == at {
                return Some(next as usize);
            }
            next = one.next;
        }
        None
    }

    // Keeps an instruction, first in its list.
    fn keep(&mut self, at: u32, instr: Instr, len: u8) -> Result<usize, AllocError>
        requires { code_by self.old.segments at ≡ Some (instr, len) }
        ensures same { self.new.segments ≡ self.old.segments }
        ensures kept { IfOk result (λ index. IsKeptAt at index self.new) }
    {
        let index = self.kept.len();
        if index >= END as usize {
            return Err(AllocError);
        }
        let list = list_of(at);
        let next = self.firsts.as_slice().get(list).copied().unwrap_or(END);
        self.kept.push(KeptInstr {
            at,
            instr,
            len,
            next,
        })?;
        if let Some(first) = self.firsts.get_mut(list) {
            *first = index as u32;
        }
        Ok(index)
    }
}

// The list of an address: the upper half of its product with an odd number, so that addresses at any regular distance are spread
// over the lists.
#[inline(always)]
fn list_of(at: u32) -> usize {
    (at.wrapping_mul(0x9E37_79B1) / 0x1_0000) as usize
}

// The segments, without the bytes that can't be run.
fn code_segments(alloc: Global, segments: &[Segment]) -> Result<Vec<Segment>, AllocError>
    ensures { IfOk result (λ made. made.items ≡ map code_segment segments.now) }
{
    let mut made = Vec::new(alloc);
    for segment in segments {
        made.push(code_segment(alloc, segment)?)?;
    }
    Ok(made)
}
