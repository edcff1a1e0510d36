// The machine.
ghost use Rattle.std.specs.Prelude.{◌≡◌, ◌≤◌, IfOk};
ghost use Rattle.sw_host.specs.Told.{Tells};
ghost use Rattle.x86_meaning.specs.Run.{IsStart};
ghost use Rattle.x86_machine.specs.Running.{RunsFrom};
ghost use Rattle.x86_machine.specs.Standing.{ended_in, steps_in, StandsAtStart};

use crate::kept::KeptCode;
use crate::start::{first_cpu, first_pages};
use crate::turn::Turned;
use image::Image;
use mem_pages::{Pages, RunEnd};
use std::alloc::{AllocError, Global};
use sw_host::Host;
use traces::{run_laws, trace_laws};
use x86_meaning::{Cpu, Meaning};

/// A program's run over an image, as far as it has come.
#[derive(Drop)]
pub struct Machine {
    pub(crate) alloc: Global,
    pub(crate) cpu: Cpu,
    pub(crate) pages: Pages,
    pub(crate) code: KeptCode,
    pub(crate) steps: u64,
    pub(crate) ended: Option<RunEnd>,
}

impl Machine {
    /// The start of the run of an image: esp is `esp0`, from which on the stack has these bytes.
    pub fn start(
        alloc: Global,
        image: &Image,
        stack: &[u8],
        esp0: u32,
    ) -> Result<Machine, AllocError>
        requires { IsStart esp0 stack.now }
        ensures { IfOk result (StandsAtStart image.now esp0 stack.now) }
    {
        Ok(Machine {
            alloc,
            cpu: first_cpu(esp0, image.entry),
            pages: first_pages(alloc, image, stack, esp0)?,
            code: KeptCode::new(alloc, image)?,
            steps: 0,
            ended: None,
        })
    }

    /// Runs it on for at most so many steps. Once its run has ended it makes no step, and the end is the same again. Where memory is
    /// wanting it stands after the steps that it made, and can be run on.
    pub fn run<H: Host>(&mut self, host: &mut H, budget: u64) -> Result<RunEnd, AllocError>
        ensures runs { Tells (H.told host.old) (H.told host.new) (RunsFrom (ended_in self.old) budget result self.old self.new) }
        ensures faults { H.faults host.old ≤ H.faults host.new }
    {
        trace_laws();
        run_laws::<Meaning>();
        // A count that was read fits.
        let _steps = self.steps();
        if let Some(end) = self.ended {
            return Ok(end);
        }
        for i in 0..budget {
            match self.turn(host) {
                Err(error) => return Err(error),
                Ok(Turned::On) => {}
                Ok(Turned::Ended(end)) => return Ok(end),
                Ok(Turned::Outside) => return Ok(RunEnd::Outside),
            }
        }
        self.rest()
    }

    /// How many steps it has made, up to 2^64 - 1.
    pub fn steps(&self) -> u64
        ensures { result ≡ steps_in self.now }
    {
        self.steps
    }
}
