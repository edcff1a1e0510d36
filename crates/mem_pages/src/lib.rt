//! Memory in pages of 4,096 bytes: regions with permissions, of which only the pages that were touched are kept.
#![tactic(auto)]

mod access;
mod directory;
mod end;
mod exposed;
mod fault;
mod lend;
mod page;
mod pages;
mod places;
mod ranges;
mod sweep;
#[cfg(test)]
mod tests;

pub use end::RunEnd;
pub use fault::PageFault;
pub use pages::Pages;
