// The calls of the host for a run.
ghost use Rattle.std.specs.Prelude.{◌≡◌, ◌≤◌, IfOk, IfErr};
ghost use Rattle.sw_host.specs.Told.{Tells, Rose};
ghost use Rattle.x86_machine.specs.Standing.{StandsAtStart};
ghost use Rattle.sw_top.specs.Texts.{texts};
ghost use Rattle.sw_top.specs.Stacks.{stack_size, greatest_stack, first_esp, start_stack};
ghost use Rattle.sw_top.specs.Running.{LoadsProgram, PerformsRun};

use crate::End;
use crate::command::{Running, Words};
use crate::laws::stack_laws;
use crate::stack::{first_esp, start_stack};
use elf_image::{ImageError, Room, read_image};
use image::Image;
use std::alloc::{AllocError, Global};
use sw_host::{Host, HostFault};
use traces::run_laws;
use x86_machine::Machine;
use x86_meaning::Meaning;

/// The most bytes of a file that is run: 512 MiB.
const GREATEST_SIZE: usize = 536_870_912;

/// The most bytes that are asked of a file: one more, so that a longer file shows.
const LIMIT: usize = 536_870_913;

/// Loads IN, and runs its image on the host, with the words as the program's arguments.
pub fn perform_run<H: Host>(alloc: Global, running: &Running, host: &mut H) -> End
    ensures performs { Tells (H.told host.old) (H.told host.new) (PerformsRun running.now result) }
    ensures cause { result ≡ End.Host → Rose (H.faults host.old) (H.faults host.new) }
    ensures form { result ≡ End.Usage → ⊥ }
{
    run_laws::<Meaning>();
    let image = match load_program(alloc, running, host) {
        Ok(image) => image,
        Err(end) => return end,
    };
    let Ok(mut machine) = start_machine(alloc, image, &running.words) else {
        return End::Memory;
    };
    match machine.run(host, running.steps) {
        Ok(end) => End::Ran(end),
        Err(_) => End::Memory,
    }
}

// Loads IN and reads its image; or how the call ends.
fn load_program<H: Host>(alloc: Global, running: &Running, host: &mut H) -> Result<Image, End>
    ensures loads { Tells (H.told host.old) (H.told host.new) (LoadsProgram running.now result) }
    ensures cause { IfErr result (λ end. end ≡ End.Host → Rose (H.faults host.old) (H.faults host.new)) }
    ensures form { IfErr result (λ end. end ≡ End.Usage → ⊥) }
{
    let bytes = match host.load(alloc, running.from.as_str(), LIMIT) {
        Ok(bytes) => bytes,
        Err(HostFault::Failed) => return Err(End::Host),
        Err(HostFault::Memory) => return Err(End::Memory),
    };
    if bytes.len() > GREATEST_SIZE {
        return Err(End::TooLong);
    }
    match read_image(alloc, bytes.as_slice(), Room::Any) {
        Ok(image) => Ok(image),
        Err(ImageError::Refused(refusal)) => Err(End::Refused(refusal)),
        Err(ImageError::Memory) => Err(End::Memory),
    }
}

// The machine at the start of the image's run. The image isn't kept.
fn start_machine(alloc: Global, image: Image, words: &Words) -> Result<Machine, AllocError>
    ensures { IfOk result (StandsAtStart image (first_esp words.now) (start_stack words.now)) }
{
    let words = words.as_slice();
    let stack = start_stack(alloc, words)?;
    start_over(alloc, &image, words, stack.as_slice())
}

// The same, over the bytes of the stack of these words.
fn start_over(
    alloc: Global,
    image: &Image,
    words: &[String],
    stack: &[u8],
) -> Result<Machine, AllocError>
    requires fits { stack_size (texts words.now) ≤ greatest_stack }
    requires stack { stack.now ≡ start_stack (texts words.now) }
    ensures { IfOk result (StandsAtStart image.now (first_esp (texts words.now)) (start_stack (texts words.now))) }
{
    stack_laws();
    Machine::start(alloc, image, stack, first_esp(words))
}
