// What an instruction does to registers, and what it stores.
ghost use Rattle.std.specs.Prelude.{◌≡◌, None, List, ◌∷◌, take};
ghost use Rattle.x86_values.specs.Words.{word_list};
ghost use Rattle.x86_meaning.specs.Effect as spec;
ghost use Rattle.x86_meaning.specs.Operands.{SizedOperand};
ghost use Rattle.x86_meaning.specs.Registers as registers;
ghost use Rattle.x86_step.specs.Computed.{values_of};
ghost use Rattle.x86_step.specs.Judged.{effect_seen};
ghost use Rattle.x86_step.specs.Transferred.{bytes_in_size, as_field, fields_of, as_location, operand_of, as_place, writes_of};

use crate::operand::{Location, Place, Size, register};
use crate::operands::{Field, Fields, Operand, Writes};
use crate::outcome::Way;
use crate::stack::{set_register, whole};
use crate::values::Values;
use x86_types::Reg;
use x86_values::{Flags, Word};

/// The lowest bytes of a word, stored from an address on.
#[derive(Clone, Copy)]
pub(crate) struct Stored {
    pub at: u32,
    pub size: Size,
    pub word: Word,
}

/// The new registers and flags, what is stored, and how the step goes on.
#[derive(Clone, Copy)]
pub(crate) struct Effect {
    pub regs: [Word; 8],
    pub flags: Flags,
    pub store: Option<Stored>,
    pub way: Way,
}

/// A word whose lowest bytes are those of another.
#[inline]
pub(crate) fn with_lowest(size: Size, word: Word, old: Word) -> Word
    ensures { result ≡ registers.with_bytes 0 (take (bytes_in_size size) (word_list word)) old }
{
    match size {
        Size::Zero => old,
        Size::One => Word {
            b0: word.b0,
            b1: old.b1,
            b2: old.b2,
            b3: old.b3,
        },
        Size::Two => Word {
            b0: word.b0,
            b1: word.b1,
            b2: old.b2,
            b3: old.b3,
        },
        Size::Four => word,
    }
}

/// A word whose bytes from the second on are the lowest of another.
#[inline]
pub(crate) fn with_second(size: Size, word: Word, old: Word) -> Word
    ensures { result ≡ registers.with_bytes 1 (take (bytes_in_size size) (word_list word)) old }
{
    match size {
        Size::Zero => old,
        Size::One => Word {
            b0: old.b0,
            b1: word.b0,
            b2: old.b2,
            b3: old.b3,
        },
        Size::Two => Word {
            b0: old.b0,
            b1: word.b0,
            b2: word.b1,
            b3: old.b3,
        },
        Size::Four => Word {
            b0: old.b0,
            b1: word.b0,
            b2: word.b1,
            b3: word.b2,
        },
    }
}

/// A word is written to an operand in a register.
pub(crate) fn write_field(field: Field, word: Word, effect: &mut Effect)
    ensures written { effect_seen effect.new ≡ spec.written_to (bytes_in_size field.size) (as_place field.place) word (effect_seen effect.old) }
    ensures store { effect.new.store ≡ effect.old.store }
{
    match field.place {
        Place::Lowest(reg) => {
            let word = with_lowest(field.size, word, register(&effect.regs, reg));
            set_register(&mut effect.regs, reg, word);
        }
        Place::Second(reg) => {
            let word = with_second(field.size, word, register(&effect.regs, reg));
            set_register(&mut effect.regs, reg, word);
        }
    }
}

/// A word is written to an operand, where nothing is stored yet.
pub(crate) fn write(operand: Operand, word: Word, effect: &mut Effect)
    requires first { effect.old.store ≡ None }
    ensures written { effect_seen effect.new ≡ spec.written_to (bytes_in_size operand.size) (as_location operand.location) word (effect_seen effect.old) }
{
    let size = operand.size;
    match operand.location {
        Location::Register(place) => write_field(Field { size, place }, word, effect),
        Location::Memory(at) => effect.store = Some(Stored { at, size, word }),
        Location::Constant(_) => {}
    }
}

// The first of some words is written to an operand in a register; the others are left.
fn write_next(field: Field, values: Values, effect: &mut Effect) -> Values
    ensures written { (more : List SizedOperand) → spec.all_written (as_field field ∷ more) (values_of values) (effect_seen effect.old) ≡ spec.all_written more (values_of result) (effect_seen effect.new) }
    ensures store { effect.new.store ≡ effect.old.store }
{
    match values {
        Values::Zero => Values::Zero,
        Values::One(x) => {
            write_field(field, x, effect);
            Values::Zero
        }
        Values::Two(x, y) => {
            write_field(field, x, effect);
            Values::One(y)
        }
        Values::Three(x, y, z) => {
            write_field(field, x, effect);
            Values::Two(y, z)
        }
        Values::Four(x, y, z, t) => {
            write_field(field, x, effect);
            Values::Three(y, z, t)
        }
    }
}

// The first of some words is written to an operand; the others are left.
fn write_first(operand: Operand, values: Values, effect: &mut Effect) -> Values
    requires first { effect.old.store ≡ None }
    ensures written { (more : List SizedOperand) → spec.all_written (operand_of operand ∷ more) (values_of values) (effect_seen effect.old) ≡ spec.all_written more (values_of result) (effect_seen effect.new) }
{
    match values {
        Values::Zero => Values::Zero,
        Values::One(x) => {
            write(operand, x, effect);
            Values::Zero
        }
        Values::Two(x, y) => {
            write(operand, x, effect);
            Values::One(y)
        }
        Values::Three(x, y, z) => {
            write(operand, x, effect);
            Values::Two(y, z)
        }
        Values::Four(x, y, z, t) => {
            write(operand, x, effect);
            Values::Three(y, z, t)
        }
    }
}

// Words are written to operands in registers, in order.
fn write_fields(fields: Fields, values: Values, effect: &mut Effect)
    ensures written { effect_seen effect.new ≡ spec.all_written (fields_of fields) (values_of values) (effect_seen effect.old) }
{
    match fields {
        Fields::Zero => {}
        Fields::One(a) => {
            let _ = write_next(a, values, effect);
        }
        Fields::Two(a, b) => {
            let values = write_next(a, values, effect);
            let _ = write_next(b, values, effect);
        }
        Fields::Three(a, b, c) => {
            let values = write_next(a, values, effect);
            let values = write_next(b, values, effect);
            let _ = write_next(c, values, effect);
        }
    }
}

/// Words are written to operands, in order.
pub(crate) fn write_all(writes: Writes, values: Values, effect: &mut Effect)
    requires first { effect.old.store ≡ None }
    ensures written { effect_seen effect.new ≡ spec.all_written (writes_of writes) (values_of values) (effect_seen effect.old) }
{
    match writes {
        Writes::Fields(fields) => write_fields(fields, values, effect),
        Writes::Then(operand, fields) => {
            let values = write_first(operand, values, effect);
            write_fields(fields, values, effect);
        }
        Writes::EspThen(operand) => {
            let values = write_next(whole(Reg::Esp), values, effect);
            let _ = write_first(operand, values, effect);
        }
    }
}
