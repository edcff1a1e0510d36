ghost use Rattle.std.specs.Prelude.{◌≡◌, ◌<◌, ◌≤◌};
ghost use Rattle.x86_grammar.specs.Attributes as spec;
ghost use Rattle.x86_grammar.specs.Rows as rows;
ghost use Rattle.x86_grammar.specs.Spells as spells;

use crate::row::{Counts, F3, ImmSize, Prefixes, Row};
use crate::rows::attributes_of;
use x86_types::Width;

/// The row's opcode; 0x100 stands for 0F before the byte.
pub fn opcode_of(row: Row) -> u16
    ensures opcode { result ≡ rows.opcode_of row }
    ensures small { result < 0x200 }
{
    attributes_of(row).opcode
}

/// Whether ModRM stands behind the row's opcode.
pub fn has_operand(row: Row) -> bool
    ensures { result ≡ rows.has_operand row }
{
    attributes_of(row).modrm
}

/// Whether one 66 makes width Two.
pub fn has_operand_size(row: Row) -> bool
    ensures { result ≡ spec.has_operand_size row }
{
    attributes_of(row).prefixes.operand_size
}

/// The width of an opcode: One where its w bit is 0, else Two behind 66 and Four without.
pub fn width_of(w: bool, operand_size: bool) -> Width
    ensures { result ≡ spec.width_of w operand_size }
{
    match (w, operand_size) {
        (false, _) => Width::One,
        (true, true) => Width::Two,
        (true, false) => Width::Four,
    }
}

fn wide_size(w: bool, operand_size: bool) -> u8
    ensures size { result ≡ spec.wide_size w operand_size }
    ensures few { result ≤ 4 }
{
    width_of(w, operand_size).size()
}

/// The bytes of an immediate: none, one, two or four.
pub fn size_in(imm: ImmSize, operand_size: bool) -> u8
    ensures size { result ≡ spec.size_in imm operand_size }
    ensures few { result ≤ 4 }
{
    match imm {
        ImmSize::NoImm => 0,
        ImmSize::Imm8 => 1,
        ImmSize::Imm16 => 2,
        ImmSize::Imm32 => 4,
        ImmSize::ImmOperand(w) => wide_size(w, operand_size),
    }
}

/// The bytes of the number at the row's end.
pub fn imm_size(row: Row, operand_size: bool) -> u8
    ensures size { result ≡ spec.imm_size row operand_size }
    ensures few { result ≤ 4 }
{
    size_in(attributes_of(row).imm, operand_size)
}

fn f3_fits(f3: F3, rep: bool) -> bool
    ensures { result ≡ spec.f3_fits f3 rep }
{
    match f3 {
        F3::Never => !rep,
        F3::May => true,
        F3::Must => rep,
    }
}

/// Whether 66 makes width Two: exactly one stands, and it is known.
pub fn known_operand_size(known: Prefixes, counts: Counts) -> bool
    ensures { result ≡ spells.known_operand_size known counts }
{
    counts.operand_sizes == 1 && known.operand_size
}

/// Whether the prefixes are among those that are known.
pub fn known_fit(known: Prefixes, counts: Counts) -> bool
    ensures { result ≡ spells.known_fit known counts }
{
    (counts.operand_sizes == 0 || known_operand_size(known, counts) || known.any_66)
        && (counts.segments == 0 || known.any_2e)
        && (counts.hints == 0 || (counts.hints == 1 && known.one_3e))
        && counts.repeats < 2
        && f3_fits(known.f3, counts.repeats == 1)
}

/// Whether 66 makes width Two behind those prefixes.
pub fn operand_size_in(row: Row, counts: Counts) -> bool
    ensures { result ≡ spells.operand_size_in row counts }
{
    known_operand_size(attributes_of(row).prefixes, counts)
}

/// Whether the prefixes are those that the row knows.
pub fn prefixes_fit(row: Row, counts: Counts) -> bool
    ensures { result ≡ spells.prefixes_fit row counts }
{
    known_fit(attributes_of(row).prefixes, counts)
}
