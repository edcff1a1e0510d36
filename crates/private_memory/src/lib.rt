//! The private area of a written file, and the memory as the program knew it.
#![tactic(auto)]

mod laws;

pub use laws::{private_access_laws, usual_laws};
