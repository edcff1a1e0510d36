// The forms of INC and DEC.
ghost use Rattle.x86_types.specs.declared.instr.Instr.TheVariants as instr;
ghost use Rattle.x86_grammar.specs.declared.row.Row.TheVariants as row;
ghost use Rattle.x86_grammar.specs.Forms as forms;
ghost use Rattle.x86_encode.specs.Text.{AreOffered};

use crate::offer::{offer_plain, offer_rm};
use crate::parts::is_full;
use crate::text::Text;
use x86_grammar::Row;
use x86_types::{Rm, Width};

fn inc_short(best: &mut Text, width: Width, to: Rm)
    ensures { AreOffered (forms.short_step row.IncReg width to) best.old best.new }
{
    match width {
        Width::One => {}
        Width::Two | Width::Four => {
            if let Rm::Reg(reg) = to {
                offer_plain(best, Row::IncReg(reg), width, 0);
            }
        }
    }
}

fn dec_short(best: &mut Text, width: Width, to: Rm)
    ensures { AreOffered (forms.short_step row.DecReg width to) best.old best.new }
{
    match width {
        Width::One => {}
        Width::Two | Width::Four => {
            if let Rm::Reg(reg) = to {
                offer_plain(best, Row::DecReg(reg), width, 0);
            }
        }
    }
}

/// INC.
pub(crate) fn inc(best: &mut Text, width: Width, to: Rm)
    ensures { AreOffered (forms.forms (instr.Inc width to)) best.old best.new }
{
    offer_rm(best, Row::Inc(is_full(width)), width, 0, to, 0);
    inc_short(best, width, to);
}

/// DEC.
pub(crate) fn dec(best: &mut Text, width: Width, to: Rm)
    ensures { AreOffered (forms.forms (instr.Dec width to)) best.old best.new }
{
    offer_rm(best, Row::Dec(is_full(width)), width, 1, to, 0);
    dec_short(best, width, to);
}
