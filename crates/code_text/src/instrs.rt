// The instructions of laid code: those of placed code, of a jump to an old address, and of the beginning.
ghost use Rattle.std.specs.Prelude.{◌≡◌};
ghost use Rattle.x86_types.specs.declared.instr.Instr.TheVariants.{JmpTo};
ghost use Rattle.x86_grammar.specs.Fields.{HasSpelling};
ghost use Rattle.named_code.specs.Items.{cell_of, placed_item, word_at};
ghost use Rattle.laid_code.specs.Beginning.{esp_to};
ghost use Rattle.code_text.specs.TableJump as table_jump;

use named_code::{Home, PInstr};
use x86_grammar::spelled_fields_fit;
use x86_types::{Address, AluOp, Instr, Reg, Rm, Src, Width};

const EAX: Rm = Rm::Reg(Reg::Eax);

// The word at an address.
fn word_at(disp: u32) -> Address
    ensures { result ≡ word_at disp }
{
    Address {
        base: None,
        index: None,
        scale: 1,
        disp,
    }
}

// The cell of a name, where it has a home, and else 0.
fn cell_of(homes: &[Home], name: u32) -> u32
    ensures { result ≡ cell_of homes.now name }
{
    match homes.get(name as usize) {
        Some(home) => home.cell,
        None => 0,
    }
}

/// The instruction that an item of placed code is.
pub(crate) fn instr_of(homes: &[Home], item: &PInstr) -> Instr
    ensures { result ≡ (placed_item homes.now item.now).instr }
{
    match *item {
        PInstr::Own(instr) => instr,
        PInstr::Fetch(name, register) => Instr::Mov {
            width: Width::Four,
            to: Rm::Reg(register),
            from: Src::Mem(word_at(cell_of(homes, name))),
        },
        PInstr::Keep(name, register) => Instr::Mov {
            width: Width::Four,
            to: Rm::Mem(word_at(cell_of(homes, name))),
            from: Src::Reg(register),
        },
    }
}

/// An old address goes to eax.
pub(crate) fn take_address(to: Rm) -> Instr
    requires { HasSpelling (JmpTo to) }
    ensures is { result ≡ table_jump.take_address to }
    ensures spelled { HasSpelling result }
{
    spelled_fields_fit();
    let from = match to {
        Rm::Reg(register) => Src::Reg(register),
        Rm::Mem(at) => Src::Mem(at),
    };
    Instr::Mov {
        width: Width::Four,
        to: EAX,
        from,
    }
}

/// The beginning of the span is taken from eax.
pub(crate) fn less_span(span: u32) -> Instr
    ensures is { result ≡ table_jump.less_span span }
    ensures spelled { HasSpelling result }
{
    spelled_fields_fit();
    Instr::Alu {
        op: AluOp::Sub,
        width: Width::Four,
        to: EAX,
        from: Src::Imm(span),
    }
}

/// eax is compared with the number of addresses in the span.
pub(crate) fn compare_count(count: u32) -> Instr
    ensures is { result ≡ table_jump.compare_count count }
    ensures spelled { HasSpelling result }
{
    spelled_fields_fit();
    Instr::Alu {
        op: AluOp::Cmp,
        width: Width::Four,
        to: EAX,
        from: Src::Imm(count),
    }
}

/// The word of the address table goes to eax.
pub(crate) fn look_up() -> Instr
    ensures is { result ≡ table_jump.look_up }
    ensures spelled { HasSpelling result }
{
    spelled_fields_fit();
    let word = Address {
        base: None,
        index: Some(Reg::Eax),
        scale: 4,
        disp: 0x7400_0000,
    };
    Instr::Mov {
        width: Width::Four,
        to: EAX,
        from: Src::Mem(word),
    }
}

/// The jump to the place in eax.
pub(crate) fn enter() -> Instr
    ensures is { result ≡ table_jump.enter }
    ensures spelled { HasSpelling result }
{
    spelled_fields_fit();
    Instr::JmpTo { to: EAX }
}

/// esp is stored in a cell.
pub(crate) fn store_esp(cell: u32) -> Instr
    ensures is { result ≡ esp_to cell }
    ensures spelled { HasSpelling result }
{
    spelled_fields_fit();
    Instr::Mov {
        width: Width::Four,
        to: Rm::Mem(word_at(cell)),
        from: Src::Reg(Reg::Esp),
    }
}

/// esp becomes 0.
pub(crate) fn clear_esp() -> Instr
    ensures is { result ≡ table_jump.clear_esp }
    ensures spelled { HasSpelling result }
{
    spelled_fields_fit();
    Instr::Mov {
        width: Width::Four,
        to: Rm::Reg(Reg::Esp),
        from: Src::Imm(0),
    }
}
