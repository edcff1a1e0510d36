// Units of compiler code.
use crate::{BlockList, ProcList};

/// A unit: whether it is lowered (its guards are operations, and no frame is ever open), the blocks of the one-stack part, and the
/// procedures with frames.
#[derive(Debug, Drop)]
pub struct Unit {
    pub lowered: bool,
    pub whole: BlockList,
    pub procs: ProcList,
}
