//! Which bytes spell which instruction.
#![tactic(auto)]

mod facts;
mod fields;
mod form_laws;
mod fronts;
mod group;
mod opcode_map;
mod parts;
mod reading;
mod renamings;
mod row;
mod rows;
mod spelling;

pub use facts::{
    has_operand, has_operand_size, imm_size, known_fit, known_operand_size, opcode_of,
    operand_size_in, prefixes_fit, size_in, width_of,
};
pub use form_laws::forms_are_right;
pub use fronts::front_laws;
pub use group::member;
pub use opcode_map::{ENTRIES, entry_at, opcode_map_is_right};
pub use parts::signed;
pub use reading::{Seen, reading_is_right};
pub use renamings::renaming_laws;
pub use row::{Attributes, Counts, Entry, F3, Form, Group, ImmSize, Prefixes, RegField, Row};
pub use rows::attributes_of;
pub use spelling::{
    has_spelling, no_spelling_begins_another, spelled_fields_fit, spelling_is_short,
    worked_spellings,
};
