// One turn of the machine.
ghost use Rattle.std.specs.Prelude.{◌≡◌, ◌≤◌, None, Ok};
ghost use Rattle.sw_host.specs.Told.{Tells};
ghost use Rattle.x86_machine.specs.Running.{steps_after};
ghost use Rattle.x86_machine.specs.Standing.{ended_in};
ghost use Rattle.x86_machine.specs.Turning.{Turns, Rests};

use crate::Machine;
use crate::step::make_step;
use mem_pages::RunEnd;
use std::alloc::AllocError;
use sw_host::Host;
use x86_meaning::step_laws;

/// What a turn comes to: the run goes on, a step has ended it, or no instruction stands there, so that it has ended without a step.
#[derive(Clone, Copy, Debug, PartialEq, Eq)]
pub enum Turned {
    On,
    Ended(RunEnd),
    Outside,
}

// The count of steps after one more.
#[inline(always)]
fn one_more(steps: u64) -> u64
    ensures { result ≡ steps_after 1 steps }
{
    steps.saturating_add(1)
}

impl Machine {
    /// Makes a step.
    #[inline(always)]
    pub(crate) fn turn<H: Host>(&mut self, host: &mut H) -> Result<Turned, AllocError>
        requires { ended_in self.old ≡ None }
        ensures turns { Tells (H.told host.old) (H.told host.new) (Turns result self.old self.new) }
        ensures on { result ≡ Ok Turned.On → ended_in self.new ≡ None }
        ensures faults { H.faults host.old ≤ H.faults host.new }
    {
        step_laws();
        let index = match self.code.fetch(self.cpu.eip) {
            Err(error) => return Err(error),
            Ok(None) => {
                self.ended = Some(RunEnd::Outside);
                return Ok(Turned::Outside);
            }
            Ok(Some(index)) => index,
        };
        let kept = self.code.get(index);
        match make_step(self.alloc, kept, &mut self.cpu, &mut self.pages, host) {
            Err(error) => Err(error),
            Ok(None) => {
                self.steps = one_more(self.steps);
                Ok(Turned::On)
            }
            Ok(Some(end)) => {
                self.steps = one_more(self.steps);
                self.ended = Some(end);
                Ok(Turned::Ended(end))
            }
        }
    }

    /// Makes no step: where no instruction stands the run has ended.
    pub(crate) fn rest(&mut self) -> Result<RunEnd, AllocError>
        requires { ended_in self.old ≡ None }
        ensures { Rests result self.old self.new }
    {
        step_laws();
        match self.code.fetch(self.cpu.eip) {
            Err(error) => Err(error),
            Ok(Some(_)) => Ok(RunEnd::Spent),
            Ok(None) => {
                self.ended = Some(RunEnd::Outside);
                Ok(RunEnd::Outside)
            }
        }
    }
}
