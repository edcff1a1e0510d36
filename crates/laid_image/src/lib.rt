//! The image of a written file: the old segments as data, and its own.
#![tactic(auto)]

mod laws;

pub use laws::image_laws;
