//! The run of a program, cut where it leaves what was found of it.
#![tactic(auto)]

mod event;

pub use event::GuardEvent;
