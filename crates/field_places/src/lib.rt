//! What an instruction does is the same over places that are paired.
#![tactic(auto)]

mod laws;

pub use laws::field_place_laws;
