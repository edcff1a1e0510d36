//! Found code: the instructions, procedures and tables of an image, and the body of a procedure.
#![tactic(auto)]

mod address_list;
mod found;
mod laws;
mod place;
mod reached;
mod search;
mod table;
#[cfg(test)]
mod tests;
mod walk;
mod worked;

pub use address_list::AddressList;
pub use found::{Found, ascends};
pub use laws::{found_laws, run_laws, worked_rows};
pub use place::{Place, PlaceList};
pub use search::place_at;
pub use table::{Table, TableList};
pub use walk::body;
pub use worked::worked_found;
