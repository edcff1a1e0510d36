//! One step of the processor, over pages.
#![tactic(auto)]

mod access;
mod addresses;
mod arithmetic;
mod choosing;
mod computing;
mod direct;
mod direct_alu;
mod direct_flow;
mod direct_make;
mod direct_moves;
mod direct_products;
mod direct_stack;
mod direct_values;
mod effect;
mod fast;
mod fast_flow;
mod fast_one;
mod fast_sums;
mod fast_two;
mod fast_values;
mod finish;
mod judge;
mod located;
mod make;
mod moving;
mod numbers;
mod operand;
mod operands;
mod outcome;
mod perform;
mod perform_stack;
mod procedures;
mod products;
mod repeats;
mod shapes;
mod shifting;
mod stack;
mod step;
mod stepped;
mod strings;
mod transfer;
mod values;

pub use step::step_one;
pub use stepped::Stepped;
