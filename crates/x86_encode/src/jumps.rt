// The forms of jumps, RET and NOP.
ghost use Rattle.x86_types.specs.declared.instr.Instr.TheVariants as instr;
ghost use Rattle.x86_grammar.specs.Forms as forms;
ghost use Rattle.x86_encode.specs.Choice.{forms_at};
ghost use Rattle.x86_encode.specs.Text.{AreOffered};

use crate::offer::{offer_plain, offer_repeated};
use crate::parts::is_signed_byte;
use crate::text::Text;
use x86_grammar::Row;
use x86_types::{Cond, Width};

/// JMP, relative.
pub(crate) fn jmp(best: &mut Text, wide: bool, by: u32)
    ensures { AreOffered (forms_at wide (instr.Jmp by)) best.old best.new }
{
    offer_plain(best, Row::JmpNear, Width::Four, by);
    if !wide && is_signed_byte(Width::Four, by) {
        offer_plain(best, Row::JmpShort, Width::Four, by % 256);
    }
}

/// Jcc.
pub(crate) fn jcc(best: &mut Text, wide: bool, cond: Cond, by: u32)
    ensures { AreOffered (forms_at wide (instr.Jcc cond by)) best.old best.new }
{
    offer_plain(best, Row::JccNear(cond), Width::Four, by);
    if !wide && is_signed_byte(Width::Four, by) {
        offer_plain(best, Row::JccShort(cond), Width::Four, by % 256);
    }
}

/// RET.
pub(crate) fn ret(best: &mut Text, drop: u16)
    ensures { AreOffered (forms.ret_forms drop) best.old best.new }
{
    match drop {
        0 => {
            offer_plain(best, Row::RetDrop, Width::Four, 0);
            offer_plain(best, Row::Ret, Width::Four, 0);
            offer_repeated(best, Row::Ret, Width::Four, true, 0);
        }
        _ => offer_plain(best, Row::RetDrop, Width::Four, drop as u32),
    }
}

/// NOP.
pub(crate) fn nop(best: &mut Text)
    ensures { AreOffered (forms.forms instr.Nop) best.old best.new }
{
    offer_plain(best, Row::Nop, Width::Four, 0);
    offer_plain(best, Row::NopLong, Width::Four, 0);
    offer_repeated(best, Row::NopEnd, Width::Four, true, 251);
}
