//! The open frames of a unit's run: their bytes, locals, and the accesses that stay in them.
#![tactic(auto)]

mod calling;
mod closing;
mod fixed;
mod frame;
mod frames;
mod locals;
mod near;
mod near_bytes;
mod opening;
mod returning;
#[cfg(test)]
mod tests;

pub use closing::ReturnPlace;
pub use frame::OpenFrame;
pub use frames::OpenFrames;
pub use opening::FrameStart;
pub use returning::ReturnCheck;
