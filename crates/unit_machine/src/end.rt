// How a run of a unit ends.
use mem_pages::RunEnd;

/// How a run of a unit ends, within a number of operations and exits: as a run of the processor does, or by a stop at an old address.
#[derive(Clone, Copy, Debug, PartialEq, Eq)]
pub enum UnitEnd {
    Run(RunEnd),
    Stopped(u32),
}
