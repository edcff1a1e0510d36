//! Executable files: which are accepted, their images, and the first cause of a refusal (System V gABI, chapters 4 and
//! 5; Intel386 supplement).
#![tactic(auto)]

mod extent;
mod header;
mod judge;
mod laws;
mod overlap;
mod pages;
mod plain;
mod reader;
mod refusal;
mod segment;
mod table;
#[cfg(test)]
mod tests;

pub use header::ProgramHeader;
pub use image::Room;
pub use laws::{
    image_laws, worked_headers, worked_images, worked_limits, worked_refusals, worked_segments,
};
pub use plain::is_plain;
pub use reader::read_image;
pub use refusal::{ImageError, Refusal};
