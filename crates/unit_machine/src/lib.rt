//! The machine that runs a unit of flag-explicit code over a host.
#![tactic(auto)]

mod calculate;
mod call;
mod compute;
mod end;
mod index;
mod leave;
mod perform;
mod run;
mod step;
#[cfg(test)]
mod tests;
mod values;
mod worked;

pub use end::UnitEnd;
pub use run::run_unit;
pub use worked::counting_unit;
