// The memory of a step: a page that can be written, one behind it that can't, and in them the window of 64 bytes that a record has.
ghost use Rattle.std.specs.Prelude.{◌≡◌, length};

use crate::state::{RECORD, put_byte};
use mem_pages::{PageFault, Pages};
use std::alloc::{AllocError, Global};
use x86_values::Byte;

/// The first page, and the first address behind the second.
const START: u32 = 0x2000_0000;

const BETWEEN: u32 = 0x2000_1000;

const END: u32 = 0x2000_2000;

/// The window, half of it in each page.
const WINDOW: u32 = 0x2000_0FE0;

/// The two pages, with zeros.
pub fn mapped(alloc: Global) -> Result<Pages, AllocError> {
    let mut pages = Pages::new(alloc);
    pages.add_region(START, BETWEEN, true, Byte::Known(0))?;
    pages.add_region(BETWEEN, END, false, Byte::Known(0))?;
    Ok(pages)
}

/// Puts a record's bytes from 64 on into the window.
pub fn fill_window(bytes: &[u8], pages: &mut Pages) -> Result<(), AllocError>
    requires { length bytes.now ≡ 128 }
{
    match pages.fill(WINDOW, &bytes[64..128]) {
        Ok(()) => Ok(()),
        Err(PageFault::NotMapped | PageFault::NotWritable | PageFault::Memory) => Err(AllocError),
    }
}

/// Puts the window's bytes into the answer, from byte 64 on.
pub(crate) fn put_window(pages: &Pages, answer: &mut [u8; RECORD]) {
    for offset in 0..64usize {
        if let Ok(byte) = pages.read(WINDOW + offset as u32) {
            put_byte(byte, answer, 64 + offset, 44, offset);
        }
    }
}
