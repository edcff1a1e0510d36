//! Laid code as bytes.
#![tactic(auto)]

mod instrs;
mod laws;
mod places;
mod placing;
mod pushing;
mod sizes;
mod text;

pub use laws::{form_laws, layout_laws};
pub use places::CodePlaces;
pub use placing::places_of;
pub use sizes::has_room;
pub use text::code_text;
