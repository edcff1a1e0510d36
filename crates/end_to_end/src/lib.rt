//! Worked rows: the top call over a host in memory, its files made by hand. There are only tests here.
#![tactic(auto)]

#[cfg(test)]
mod calls;
#[cfg(test)]
mod files;
#[cfg(test)]
mod hosts;
#[cfg(test)]
mod refusals;
#[cfg(test)]
mod rewriting;
#[cfg(test)]
mod running;
#[cfg(test)]
mod values;
