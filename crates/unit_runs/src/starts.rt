// The start of a run from a name of one or two letters alone (System V ABI, Intel386 supplement, "Process Initialization"), by hand: 128 bytes
// that end at BFFF0000, with the name behind six words.
ghost use Rattle.std.specs.Prelude.{◌≡◌, length};

use image::Image;
use mem_pages::Pages;
use std::alloc::{AllocError, Global};
use x86_machine::first_pages;

/// The address at which the stack begins.
pub const ESP0: u32 = 0xBFFE_FF80;

/// The bytes of the stack: the count of words, the address of the name, four zeros for the ends of the words, of the environment and of the
/// auxiliary vector, and the name.
pub fn stack_of(name: [u8; 2]) -> [u8; 128] {
    let mut stack = [0; 128];
    stack[0] = 1;
    let at = (ESP0 + 24).to_le_bytes();
    for offset in 0..4usize {
        stack[4 + offset] = at[offset];
    }
    stack[24] = name[0];
    stack[25] = name[1];
    stack
}

/// The memory of that start: the pages of an image, and the stack.
pub fn start_pages(alloc: Global, image: &Image, stack: &[u8]) -> Result<Pages, AllocError>
    requires { length stack.now ≡ 128 }
{
    first_pages(alloc, image, stack, ESP0)
}
