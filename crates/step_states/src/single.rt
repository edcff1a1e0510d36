// One step of the instruction that some bytes begin with.
ghost use Rattle.mem_pages.specs.Contents.{memory_in};
ghost use Rattle.step_states.specs.Single.{MakesOne};

use mem_pages::Pages;
use std::alloc::AllocError;
use x86_decode::{Decoded, decode};
use x86_meaning::Cpu;
use x86_step::{Stepped, step_one};

/// Makes one step of the instruction that the bytes begin with; none where they begin with none.
pub fn single_step(
    bytes: &[u8],
    cpu: &mut Cpu,
    pages: &mut Pages,
) -> Result<Option<Stepped>, AllocError>
    ensures { MakesOne bytes.now result cpu.old (memory_in pages.old) cpu.new (memory_in pages.new) }
{
    match decode(bytes) {
        Decoded::One(instr, len) => Ok(Some(step_one(&instr, len, cpu, pages)?)),
        _ => Ok(None),
    }
}
