// Which procedure runs, and whether it may make a call.
ghost use Rattle.std.specs.Prelude.{◌≡◌, List};
ghost use Rattle.flag_ir.specs.declared.procedure.Proc.{Proc};
ghost use Rattle.unit_frames.specs.Kept.{frames_of};
ghost use Rattle.unit_frames.specs.Places.{holds_call, innermost_proc};

use crate::frames::OpenFrames;
use flag_ir::Proc;

impl OpenFrames {
    /// The index of the procedure that runs, which is that of the innermost frame.
    pub fn procedure(&self) -> Option<usize>
        ensures { result ≡ innermost_proc self.now }
    {
        match self.innermost() {
            None => None,
            Some(frame) => Some(frame.proc),
        }
    }

    /// Whether the words from the caller of a call, that is entered with `height` in esp, stand in the innermost frame.
    #[tactic(auto, using(crate::proofs::Calls::no_call, crate::proofs::Calls::held, crate::proofs::Calls::not_held))]
    pub fn holds_call(&self, height: u32, proc: &Proc) -> bool
        ensures { (procs : List Proc) → result ≡ holds_call height proc.now (frames_of procs self.now) }
    {
        match self.innermost() {
            None => false,
            Some(frame) => {
                frame.height as u64 <= height as u64 + 4 + frame.depth as u64
                    && height as u64 + 4 + 4 * proc.args as u64 <= frame.height as u64
            }
        }
    }
}
