//! Which instruction stands at each address of an image.
#![tactic(auto)]

mod laws;

pub use laws::code_laws;
