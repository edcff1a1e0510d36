//! The found code of an image.
#![tactic(auto)]

mod adding;
mod address_set;
mod closing;
mod discover_error;
mod discovery;
mod kept;
mod leading;
#[cfg(test)]
mod leading_rows;
mod settling;
mod stored;
mod table_extents;
mod table_map;
#[cfg(test)]
mod table_rows;
#[cfg(test)]
mod tests;
mod work;

pub use discover_error::DiscoverError;
pub use discovery::discover;
