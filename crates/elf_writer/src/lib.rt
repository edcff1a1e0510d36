//! Writing an image as an executable file (System V gABI, "ELF Header", "Program Header").
#![tactic(auto)]

mod header;
mod laws;
#[cfg(test)]
mod tests;
mod writer;

pub use laws::{read_images_can_be_written, writer_laws};
pub use writer::write_image;
