//! Laid code: what it is for placed code to stand in the code of a processor, and that it runs as the placed code does.
#![tactic(auto)]

mod laws;

pub use laws::{beginning_laws, form_laws, laid_laws};
