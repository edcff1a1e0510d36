//! Images of executables: segments of whole pages with their permissions, and the entry.
#![tactic(auto)]

mod address;
mod image;
mod laws;
mod perm;
mod room;
#[cfg(test)]
mod tests;
mod worked;

pub use address::{byte_at, can_run};
pub use image::{Image, Segment, SegmentList, fits_wide_room, has_its_place};
pub use laws::worked_addresses;
pub use perm::Perm;
pub use room::Room;
pub use worked::worked_image;
