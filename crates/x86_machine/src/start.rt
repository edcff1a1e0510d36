// The memory and the processor at the start of a run.
ghost use Rattle.std.specs.Prelude.{◌≡◌, ◌+◌, ◌≤◌, ◌^◌, length, IfOk, OnOk};
ghost use Rattle.image.specs.Addresses.{has};
ghost use Rattle.mem_pages.specs.Contents.{memory_in};
ghost use Rattle.mem_pages.specs.Regions.{HasRoom, unmapped};
ghost use Rattle.memory.specs.Memory.{memory_of, stack_start, with_stack};
ghost use Rattle.x86_meaning.specs.Run.{IsStart, first_processor};
ghost use Rattle.x86_step.specs.Steps.{registers_of};
ghost use Rattle.x86_machine.specs.Loading.{filled_region, with_segment};

use bitflags::Flags as _;
use image::{Image, Perm, Segment, fits_wide_room, has_its_place};
use mem_pages::Pages;
use memory::memory_laws;
use std::alloc::{AllocError, Global};
use x86_meaning::Cpu;
use x86_values::{Byte, Flags, word_of};

/// The processor at the start: esp is known, and the other registers are 0.
pub(crate) fn first_cpu(esp0: u32, entry: u32) -> Cpu
    ensures regs { registers_of result.regs ≡ (first_processor esp0).regs }
    ensures flags { result.flags ≡ (first_processor esp0).flags }
    ensures eip { result.eip ≡ entry }
{
    let zero = word_of(0);
    let flags = Flags {
        cf: None,
        pf: None,
        zf: None,
        sf: None,
        of: None,
    };
    Cpu {
        regs: [zero, zero, zero, zero, word_of(esp0), zero, zero, zero],
        flags,
        eip: entry,
    }
}

// Maps a region and fills a part of it.
fn add_filled(
    pages: &mut Pages,
    start: u32,
    end: u32,
    can_write: bool,
    unset: Byte,
    at: u32,
    bytes: &[u8],
) -> Result<(), AllocError>
    requires order { start ≤ end }
    requires room { HasRoom start end (memory_in pages.old) }
    requires within { at + length bytes.now ≤ 2 ^ 32 }
    ensures { OnOk result (memory_in pages.new ≡ filled_region start end can_write unset at bytes.now (memory_in pages.old)) }
{
    pages.add_region(start, end, can_write, unset)?;
    match pages.fill(at, bytes) {
        Ok(()) => Ok(()),
        Err(_) => Err(AllocError),
    }
}

// Whether the bytes of a segment can be written.
fn can_write(segment: &Segment) -> bool
    ensures { result ≡ has segment.now.perm.0 2 }
{
    segment.perm.contains(Perm::W)
}

// Maps a segment and fills it.
fn add_segment(pages: &mut Pages, segment: &Segment) -> Result<(), AllocError>
    requires { HasRoom segment.now.start (segment.now.start + segment.now.size) (memory_in pages.old) }
    ensures { OnOk result (memory_in pages.new ≡ with_segment segment.now (memory_in pages.old)) }
{
    has_its_place(segment);
    memory_laws();
    let end = segment.start + segment.size;
    let bytes = segment.bytes.as_slice();
    add_filled(
        pages,
        segment.start,
        end,
        can_write(segment),
        Byte::Known(0),
        segment.start,
        bytes,
    )
}

// Maps the segments of an image and fills them.
fn load(pages: &mut Pages, image: &Image) -> Result<(), AllocError>
    requires { memory_in pages.old ≡ unmapped }
    ensures { OnOk result (memory_in pages.new ≡ memory_of image.now) }
{
    fits_wide_room(image);
    for segment in image.segments.as_slice() {
        add_segment(pages, segment)?;
    }
    Ok(())
}

// Maps the stack, and fills it from esp on.
fn add_stack(pages: &mut Pages, stack: &[u8], esp0: u32) -> Result<(), AllocError>
    requires start { IsStart esp0 stack.now }
    requires room { HasRoom (stack_start esp0) (esp0 + length stack.now) (memory_in pages.old) }
    ensures { OnOk result (memory_in pages.new ≡ with_stack esp0 stack.now (memory_in pages.old)) }
{
    memory_laws();
    let start = esp0 / 4096 * 4096 - 0x80_0000;
    let end = esp0 + stack.len() as u32;
    add_filled(pages, start, end, true, Byte::Unspecified, esp0, stack)
}

/// The memory at the start of a run: the pages of an image, and the stack, whose bytes stand from `esp0` on.
pub fn first_pages(
    alloc: Global,
    image: &Image,
    stack: &[u8],
    esp0: u32,
) -> Result<Pages, AllocError>
    requires { IsStart esp0 stack.now }
    ensures { IfOk result (λ pages. memory_in pages ≡ with_stack esp0 stack.now (memory_of image.now)) }
{
    fits_wide_room(image);
    let mut pages = Pages::new(alloc);
    load(&mut pages, image)?;
    add_stack(&mut pages, stack, esp0)?;
    Ok(pages)
}
