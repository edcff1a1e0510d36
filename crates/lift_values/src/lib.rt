//! Lists of operations that compute what instructions compute.
#![tactic(auto)]

mod conditions;
mod divisions;
mod double_shifts;
mod extensions;
mod flags;
mod laws;
mod logic;
mod products;
mod scans;
mod shift_laws;
mod shift_pieces;
#[cfg(test)]
mod shift_tests;
mod shifts;
mod sums;
mod terms;
#[cfg(test)]
mod tests;

pub use conditions::{cmov_core, condition_ops, set_core};
pub use divisions::div_core;
pub use double_shifts::double_shift_core;
pub use extensions::{extend_core, move_core, spread_core, swap_core};
pub use laws::{core_forms, core_laws, worked_cores};
pub use logic::{alu_core, not_core, test_core};
pub use products::{imul_core, mul_core};
pub use scans::scan_core;
pub use shift_laws::{shift_core_laws, worked_shift_cores};
pub use shifts::shift_core;
pub use sums::{dec_core, inc_core, neg_core};
