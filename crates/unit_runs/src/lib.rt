//! Runs of the units of worked programs, from their files on. There are only tests here.
#![tactic(auto)]

#[cfg(test)]
mod running;
#[cfg(test)]
mod starts;
#[cfg(test)]
mod units;
