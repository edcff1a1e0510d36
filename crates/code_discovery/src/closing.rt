// All that has been found is looked at.
ghost use Rattle.std.specs.Prelude.{◌≡◌, ◌≤◌, None, Some, length, IfErr, OnOk};
ghost use Rattle.code_discovery.specs.Discovery.{IsTooMuch};
ghost use Rattle.code_discovery.specs.Kept.{IsWorkKept, IsSoundSoFar};
ghost use Rattle.code_discovery.specs.Settled.{IsSettling, IsClosed, KeepsFound, IsMore};

use crate::DiscoverError;
use crate::kept::Kept;
use crate::work::Work;
use code_scan::IndexedImage;
use std::alloc::{AllocError, Global};

// The most instructions of found code.
const MOST: usize = 32_768;

impl Kept {
    // Refuses more instructions than found code may have. No more lead than are found, so the leaders' test refuses nothing more.
    pub(crate) fn check_count(&self, scan: &IndexedImage) -> Result<(), DiscoverError>
        requires { IsSoundSoFar scan.now self.now }
        ensures code { OnOk result (length self.now.code ≤ 32768) }
        ensures leaders { OnOk result (length self.now.leaders ≤ 32768) }
        ensures refused { IfErr result (λ e. IsTooMuch scan.now e) }
    {
        if self.count_code() > MOST || self.count_leaders() > MOST {
            return Err(DiscoverError::TooMuchCode(32_769));
        }
        Ok(())
    }

    // Looks at one thing.
    fn settle(&mut self, alloc: Global, scan: &IndexedImage, work: Work) -> Result<(), AllocError>
        requires sound { IsSoundSoFar scan.now self.old }
        requires kept { IsWorkKept self.old work }
        requires settling { IsSettling scan.now self.old (Some work) }
        ensures more { OnOk result (IsMore scan.now self.old self.new) }
        ensures settling { OnOk result (IsSettling scan.now self.new None) }
    {
        match work {
            Work::Instruction(at) => {
                self.settle_code(alloc, scan, at)?;
                Ok(())
            }
            Work::Leader(at) => {
                self.settle_leader(alloc, scan, at)?;
                Ok(())
            }
        }
    }

    // Looks at all that is to be looked at.
    pub(crate) fn settle_all(
        &mut self,
        alloc: Global,
        scan: &IndexedImage,
    ) -> Result<(), DiscoverError>
        requires sound { IsSoundSoFar scan.now self.old }
        requires settling { IsSettling scan.now self.old None }
        ensures sound { OnOk result (IsSoundSoFar scan.now self.new) }
        ensures closed { OnOk result (IsClosed scan.now self.new) }
        ensures grows { OnOk result (KeepsFound self.old self.new) }
        ensures stored { OnOk result (self.new.stored ≡ self.old.stored) }
        ensures few { OnOk result (length self.new.code ≤ 32768) }
        ensures refused { IfErr result (λ e. IsTooMuch scan.now e) }
    {
        self.check_count(scan)?;
        while let Some(work) = self.next_work() {
            self.settle(alloc, scan, work)?;
            self.check_count(scan)?;
        }
        Ok(())
    }
}
