// Instructions are put behind a text that stands at the beginning of new code.
ghost use Rattle.std.specs.Prelude.{◌≡◌, ◌+◌, ◌≤◌, ◌++◌, length, OnOk};
ghost use Rattle.x86_types.specs.declared.instr.Instr.TheVariants.{Jcc, Jmp, JmpTo};
ghost use Rattle.x86_grammar.specs.Fields.{HasSpelling};
ghost use Rattle.x86_encode.specs.Choice.{best, best_wide};
ghost use Rattle.code_text.specs.KeptPlaces.{place_behind, places_in};
ghost use Rattle.code_text.specs.Placing.{most_bytes};
ghost use Rattle.code_text.specs.Texts.{before_test, distance, instr_text, jump_text, table_text};

use crate::instrs::{compare_count, enter, less_span, look_up, take_address};
use crate::laws::size_laws;
use crate::places::CodePlaces;
use std::alloc::AllocError;
use x86_encode::{encode, encode_wide};
use x86_grammar::spelled_fields_fit;
use x86_types::{Cond, Instr, Rm};

/// Puts an instruction's best spelling behind the text.
pub(crate) fn push_best(out: &mut Vec<u8>, instr: &Instr) -> Result<(), AllocError>
    requires { HasSpelling instr.now }
    ensures { OnOk result (out.new.items ≡ out.old.items ++ best instr.now) }
{
    let mut text = [0; 16];
    let size = encode(instr, &mut text);
    out.extend_from_slice(&text[..size])
}

// Puts an instruction's best spelling without short jumps behind the text.
fn push_wide(out: &mut Vec<u8>, instr: &Instr) -> Result<(), AllocError>
    requires { HasSpelling instr.now }
    ensures { OnOk result (out.new.items ≡ out.old.items ++ best_wide instr.now) }
{
    let mut text = [0; 16];
    let size = encode_wide(instr, &mut text);
    out.extend_from_slice(&text[..size])
}

// The displacement of a jump of so many bytes that is put behind the text.
fn displacement(out: &Vec<u8>, size: u32, to: u32) -> u32
    requires short { size ≤ 6 }
    requires few { length out.now.items ≤ 400000000 }
    ensures { result ≡ distance to (place_behind out.now.items + size) }
{
    let next = 0x6000_0000 + out.len() as u32 + size;
    to.wrapping_sub(next)
}

/// Puts a JMP to a place behind the text.
pub(crate) fn push_jmp(out: &mut Vec<u8>, to: u32) -> Result<(), AllocError>
    requires { length out.old.items ≤ 400000000 }
    ensures { OnOk result (out.new.items ≡ out.old.items ++ jump_text Jmp 5 to (place_behind out.old.items)) }
{
    spelled_fields_fit();
    let by = displacement(out, 5, to);
    push_wide(out, &Instr::Jmp { by })
}

// Puts a Jcc to a place behind the text.
fn push_jcc(out: &mut Vec<u8>, cond: Cond, to: u32) -> Result<(), AllocError>
    requires { length out.old.items ≤ 400000000 }
    ensures { OnOk result (out.new.items ≡ out.old.items ++ jump_text (Jcc cond) 6 to (place_behind out.old.items)) }
{
    spelled_fields_fit();
    let by = displacement(out, 6, to);
    push_wide(out, &Instr::Jcc { cond, by })
}

// Puts what stands before the test of a jump to an old address behind the text.
fn push_before_test(out: &mut Vec<u8>, places: &CodePlaces, to: Rm) -> Result<(), AllocError>
    requires { HasSpelling (JmpTo to) }
    ensures { OnOk result (out.new.items ≡ out.old.items ++ before_test (places_in places.now) to) }
{
    push_best(out, &take_address(to))?;
    push_best(out, &less_span(places.span()))?;
    push_best(out, &compare_count(places.count()))
}

// Puts a jump to an old address behind the text.
fn push_table(out: &mut Vec<u8>, places: &CodePlaces, to: Rm) -> Result<(), AllocError>
    requires spelled { HasSpelling (JmpTo to) }
    requires few { length out.old.items ≤ 350000000 }
    ensures { OnOk result (out.new.items ≡ out.old.items ++ table_text (places_in places.now) (place_behind out.old.items) to) }
{
    size_laws();
    places.has_fields();
    push_before_test(out, places, to)?;
    push_jcc(out, Cond::Ae, places.stop())?;
    push_best(out, &look_up())?;
    push_best(out, &enter())
}

/// Puts an instruction behind the text.
pub(crate) fn push_instr(
    out: &mut Vec<u8>,
    places: &CodePlaces,
    instr: &Instr,
) -> Result<(), AllocError>
    requires spelled { HasSpelling instr.now }
    requires few { length out.old.items ≤ 350000000 }
    ensures text { OnOk result (out.new.items ≡ out.old.items ++ instr_text (places_in places.now) (place_behind out.old.items) instr.now) }
    ensures short { OnOk result (length out.new.items ≤ length out.old.items + most_bytes instr.now) }
{
    size_laws();
    places.has_fields();
    match *instr {
        Instr::Jmp { by } => push_jmp(out, places.numbered(by)),
        Instr::Jcc { cond, by } => push_jcc(out, cond, places.numbered(by)),
        Instr::JmpTo { to } => push_table(out, places, to),
        _ => push_best(out, instr),
    }
}
