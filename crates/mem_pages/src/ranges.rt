// Ranges of places, a page at a time.
ghost use Rattle.std.specs.Prelude.{◌≡◌, ℕ, ◌+◌, ◌*◌, ◌/◌, ◌%◌, ◌<◌, ◌≤◌, Bool, true, false, cond, OnOk, Option, Some, None};
ghost use Rattle.std.specs.Option.{is_some};
ghost use Rattle.memory.specs.Memory.{allows};
ghost use Rattle.mem_pages.specs.Regions.{HasRoom, with_region, forget_between};
ghost use Rattle.mem_pages.specs.Directory.{page_at, contents, KeepsPlaces, HasPages};

use crate::directory::Directory;
use crate::page::PAGE;
use crate::places::part_end;
use std::alloc::AllocError;
use x86_values::Byte;

impl Directory {
    /// Makes the bytes of the stack from `start` up to but not with `end` unspecified.
    pub fn forget(&mut self, start: u32, end: u32)
        requires { start ≤ end }
        ensures places { (a : ℕ) → contents self.new a ≡ forget_between start end (contents self.old) a }
        ensures keeps { KeepsPlaces self.old self.new }
    {
        let mut at = start;
        'parts: while at < end {
            let next = part_end(at, end);
            self.forget_part(at, next);
            at = next;
        }
    }

    /// Adds the pages of a range.
    pub fn grow_range(&mut self, start: u32, end: u32) -> Result<(), AllocError>
        requires { start ≤ end }
        ensures places { (a : ℕ) → contents self.new a ≡ contents self.old a }
        ensures keeps { KeepsPlaces self.old self.new }
        ensures has { OnOk result (HasPages start end self.new) }
    {
        let mut at = start;
        'parts: while at < end {
            self.grow(at / PAGE)?;
            at = part_end(at, end);
        }
        Ok(())
    }

    /// Maps the places of a range in whose pages none is mapped.
    pub fn map(&mut self, start: u32, end: u32, can_write: bool, unset: Byte)
        requires order { start ≤ end }
        requires there { HasPages start end self.old }
        requires room { HasRoom start end (contents self.old) }
        ensures places { (a : ℕ) → contents self.new a ≡ with_region start end can_write unset (contents self.old) a }
        ensures keeps { KeepsPlaces self.old self.new }
    {
        let mut at = start;
        'parts: while at < end {
            let next = part_end(at, end);
            self.map_part(at, next, can_write, unset);
            at = next;
        }
    }
}
