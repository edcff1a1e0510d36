//! Code over named places: blocks of instructions whose register fields hold registers or names, placed code, in which the names have
//! registers and cells, and what both mean.
#![tactic(auto)]

mod laws;
mod named;
mod placed;
mod rows;
mod slot;

pub use laws::{CodeMeaning, code_laws, tested_laws};
pub use named::{VBlock, VCode, VInstr, VInstrList};
pub use placed::{Home, HomeList, PBlock, PBlockList, PInstr, PInstrList, Placed};
pub use rows::worked_code;
pub use slot::{Slot, SlotList};
