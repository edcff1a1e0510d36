//! What programs for the i386 mean: one step, and runs.
#![tactic(auto)]

mod alu_rows;
mod choice_rows;
mod condition_rows;
mod copy_rows;
mod extension_rows;
mod jump_rows;
mod laws;
mod procedure_rows;
mod product_rows;
mod shift_rows;
mod stack_rows;
mod state;
mod stop;
mod string_rows;
mod wrapping_rows;

pub use alu_rows::{worked_bit_steps, worked_sum_steps};
pub use choice_rows::worked_choice_steps;
pub use condition_rows::worked_condition_steps;
pub use copy_rows::worked_copy_steps;
pub use extension_rows::worked_extension_steps;
pub use jump_rows::worked_jump_steps;
pub use laws::{
    Meaning, access_laws, monotone_laws, program_laws, state_laws, step_laws, worked_calls,
    worked_moves,
};
pub use procedure_rows::worked_procedure_steps;
pub use product_rows::worked_product_steps;
pub use shift_rows::worked_shift_steps;
pub use stack_rows::worked_stack_steps;
pub use state::Cpu;
pub use stop::Stop;
pub use string_rows::worked_string_steps;
pub use wrapping_rows::worked_wrapping_steps;
