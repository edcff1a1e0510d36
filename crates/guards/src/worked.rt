// Worked units.
ghost use Rattle.guards.specs.WorkedUnits.{LoadRows, StopRows, WriteRows};

/// Does nothing: its clauses are worked units, lowered and run: loads from the private area and from elsewhere, a write of bytes
/// of the area, and stops.
#[tactic(auto, using(crate::proofs::WorkedRuns::load_rows, crate::proofs::WorkedRuns::write_rows, crate::proofs::WorkedRuns::stop_rows))]
pub fn worked_units()
    ensures loads { LoadRows }
    ensures writes { WriteRows }
    ensures stops { StopRows }
{}
