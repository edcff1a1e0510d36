//! What the relations between runs refuse and what they let pass, shown by small machines.
#![tactic(auto)]

mod chain;
mod checks;
mod machines;

pub use chain::{SmallCode, Weighted, chain_checks};
pub use checks::{
    agreement_checks, count_grows, ending_checks, row_checks, turn_checks, weight_checks,
};
pub use machines::{
    CodePlaces, EachCodePlace, EachCount, EachLightWalk, LaidPlaces, Numbers, Scripts, UnitPlaces,
    WalkStates,
};
