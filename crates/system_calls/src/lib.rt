//! The system calls that a program makes, over its pages and a host.
#![tactic(auto)]

mod asked;
mod call;
mod outcome;
mod read;
mod request;
mod result;
mod write;

pub use call::make_call;
pub use outcome::CallOutcome;
pub use request::CallRequest;
