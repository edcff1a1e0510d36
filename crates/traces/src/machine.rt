ghost use Rattle.traces.specs.ClockLaws.{ClockLaws};
ghost use Rattle.traces.specs.InvariantLaws.{InvariantLaws};
ghost use Rattle.traces.specs.MoveLaws.{MoveLaws};
ghost use Rattle.traces.specs.RunLaws.{RunLaws};
ghost use Rattle.traces.specs.SimulationLaws.{SimulationLaws};

/// Names the type of a machine's states, which is a type of definitions and no Rust type.
pub trait States {
    ghost Of: { Type 0 };
}

/// Names a family of types of definitions, a type for each index: pairs of states that are related, or states in which an
/// invariant holds. With a program as index, one law serves the pairs of all programs.
pub trait Family {
    ghost Index: { Type 0 };

    ghost At: { Index → Type 0 };
}

/// Does nothing: its clause is the laws of runs of every machine with such states.
pub fn run_laws<S: States>()
    ensures { RunLaws S.Of }
{}

/// Does nothing: its clause is the laws of what the steps of a machine cost.
pub fn clock_laws<S: States>()
    ensures { ClockLaws S.Of }
{}

/// Does nothing: its clause is the laws by which a run is as its moves are.
pub fn move_laws<S: States>()
    ensures { MoveLaws S.Of }
{}

/// Does nothing: its clause is the laws of runs under an invariant. A type of the family is the states in which an invariant
/// holds.
pub fn invariant_laws<S: States, I: Family>()
    ensures { (index : I.Index) → InvariantLaws S.Of (I.At index) }
{}

/// Does nothing: its clause is the laws of two machines, by which relating their states relates their runs. A type of the
/// family is the pairs of states that are related.
pub fn simulation_laws<S: States, T: States, P: Family>()
    ensures { (index : P.Index) → SimulationLaws S.Of T.Of (P.At index) }
{}
