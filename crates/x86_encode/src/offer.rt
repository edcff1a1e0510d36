ghost use Rattle.std.specs.Prelude.{◌≡◌, ◌+◌, ◌<◌, ◌≤◌, ◌++◌, Some};
ghost use Rattle.x86_grammar.specs.Parts as parts;
ghost use Rattle.x86_grammar.specs.Rows as rows;
ghost use Rattle.x86_grammar.specs.Spells as spells;
ghost use Rattle.x86_encode.specs.BestForm as spec;
ghost use Rattle.x86_encode.specs.Choice.{pick};
ghost use Rattle.x86_encode.specs.Text.{text};

use crate::operand::put_operand;
use crate::order::is_before;
use crate::parts::is_operand_size;
use crate::put::{empty, put, put_number};
use crate::text::Text;
use x86_grammar::{Form, Row, has_operand, imm_size, opcode_of};
use x86_types::{Rm, Width};

fn put_prefixes(out: &mut Text, operand_size: bool, rep: bool)
    requires room { out.old.len + 2 ≤ 16 }
    ensures text { text out.new ≡ text out.old ++ spec.best_prefixes operand_size rep }
    ensures len { out.new.len ≤ out.old.len + 2 }
{
    if operand_size {
        put(out, 0x66);
    }
    if rep {
        put(out, 0xF3);
    }
}

fn put_opcode(out: &mut Text, opcode: u16)
    requires opcode { opcode < 512 }
    requires room { out.old.len + 2 ≤ 16 }
    ensures text { text out.new ≡ text out.old ++ spells.opcode_bytes opcode }
    ensures len { out.new.len ≤ out.old.len + 2 }
{
    if opcode < 256 {
        put(out, opcode as u8);
    } else {
        put(out, 0x0F);
        put(out, (opcode - 256) as u8);
    }
}

fn put_part(out: &mut Text, row: Row, reg_field: u8, rm: Option<Rm>)
    requires reg_field { reg_field < 8 }
    requires room { out.old.len + 6 ≤ 16 }
    ensures text { text out.new ≡ text out.old ++ spec.best_part (rows.has_operand row) rm reg_field }
    ensures len { out.new.len ≤ out.old.len + 6 }
{
    if has_operand(row) {
        put_operand(out, reg_field, rm);
    }
}

fn text_of(form: Form) -> Text
    requires reg_field { form.reg_field < 8 }
    ensures text { text result ≡ spec.form_best form }
{
    let mut out = empty();
    put_prefixes(&mut out, form.operand_size, form.rep);
    put_opcode(&mut out, opcode_of(form.row));
    put_part(&mut out, form.row, form.reg_field, form.rm);
    put_number(&mut out, imm_size(form.row, form.operand_size), form.imm);
    out
}

/// Offers a form: its best text takes the place of `best` where it comes before it.
pub(crate) fn offer(best: &mut Text, form: Form)
    requires reg_field { form.reg_field < 8 }
    ensures text { text best.new ≡ pick (text best.old) form }
{
    let next = text_of(form);
    if is_before(&next, best) {
        *best = next;
    }
}

/// Offers a row with ModRM.
pub(crate) fn offer_rm(best: &mut Text, row: Row, width: Width, reg_field: u8, rm: Rm, imm: u32)
    requires reg_field { reg_field < 8 }
    ensures text { text best.new ≡ pick (text best.old) (parts.with_rm row width reg_field rm imm) }
{
    offer(
        best,
        Form {
            row,
            operand_size: is_operand_size(width),
            rep: false,
            reg_field,
            rm: Some(rm),
            imm,
        },
    );
}

/// Offers a row without ModRM, with F3 before it where `rep`.
pub(crate) fn offer_repeated(best: &mut Text, row: Row, width: Width, rep: bool, imm: u32)
    ensures text { text best.new ≡ pick (text best.old) (parts.repeated row width rep imm) }
{
    offer(
        best,
        Form {
            row,
            operand_size: is_operand_size(width),
            rep,
            reg_field: 0,
            rm: None,
            imm,
        },
    );
}

/// Offers a row without ModRM: its opcode, and its number where it has one.
pub(crate) fn offer_plain(best: &mut Text, row: Row, width: Width, imm: u32)
    ensures text { text best.new ≡ pick (text best.old) (parts.plain row width imm) }
{
    offer_repeated(best, row, width, false, imm);
}
