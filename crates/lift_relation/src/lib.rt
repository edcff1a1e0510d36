//! When a state of the machine and a storage of a unit match.
#![tactic(auto)]
