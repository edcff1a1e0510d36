ghost use Rattle.std.specs.Prelude.{◌≡◌, ◌+◌, ◌<◌, ◌≤◌, ◌^◌, ◌++◌};
ghost use Rattle.x86_encode.specs.BestForm as form;
ghost use Rattle.x86_encode.specs.BestOperand as spec;
ghost use Rattle.x86_encode.specs.Text.{text};

use crate::parts::is_signed_byte;
use crate::put::{put, put_number};
use crate::text::Text;
use x86_types::{Address, Reg, Rm, Width, reg_number};

fn class_of(disp: u32) -> u8
    ensures class { result ≡ spec.class_of disp }
    ensures small { result < 3 }
{
    if disp == 0 {
        0
    } else if is_signed_byte(Width::Four, disp) {
        1
    } else {
        2
    }
}

fn best_mod(base: Option<Reg>, class: u8) -> u8
    requires { class < 3 }
    ensures field { result ≡ spec.best_mod base class }
    ensures small { result < 3 }
{
    match base {
        None => 0,
        Some(reg) => {
            if class == 0 && reg_number(reg) == 5 {
                1
            } else {
                class
            }
        }
    }
}

fn best_size(base: Option<Reg>, class: u8) -> u8
    requires { class < 3 }
    ensures size { result ≡ spec.best_size base class }
    ensures few { result ≤ 4 }
{
    match base {
        None => 4,
        Some(reg) => {
            if class == 2 {
                4
            } else {
                best_mod(Some(reg), class)
            }
        }
    }
}

fn low(base: Option<Reg>) -> u8
    ensures field { result ≡ spec.low base }
    ensures small { result < 8 }
{
    match base {
        None => 5,
        Some(reg) => reg_number(reg),
    }
}

fn wants_sib(base: Option<Reg>, index: Option<Reg>) -> bool
    ensures { result ≡ spec.wants_sib base index }
{
    match index {
        Some(_) => true,
        None => low(base) == 4,
    }
}

fn best_rm(base: Option<Reg>, index: Option<Reg>) -> u8
    ensures field { result ≡ spec.best_rm base index }
    ensures small { result < 8 }
{
    if wants_sib(base, index) { 4 } else { low(base) }
}

fn index_field(index: Option<Reg>) -> u8
    ensures field { result ≡ spec.index_field index }
    ensures small { result < 8 }
{
    match index {
        None => 4,
        Some(reg) => reg_number(reg),
    }
}

fn scale_field(scale: u8) -> u8
    ensures field { result ≡ spec.scale_field scale }
    ensures small { result < 4 }
{
    match scale {
        1 => 0,
        2 => 1,
        4 => 2,
        _ => 3,
    }
}

fn sib_of(at: &Address) -> u8
    ensures { result ≡ spec.best_sib at.now.base at.now.index at.now.scale }
{
    if wants_sib(at.base, at.index) {
        64 * scale_field(at.scale) + (8 * index_field(at.index) + low(at.base))
    } else {
        0
    }
}

fn raw(size: u8, disp: u32) -> u32
    ensures { result ≡ spec.raw size disp }
{
    match size {
        0 => 0,
        1 => disp % 256,
        _ => disp,
    }
}

fn put_sib(out: &mut Text, at: &Address)
    requires room { out.old.len < 16 }
    ensures text { text out.new ≡ text out.old ++ spec.best_sibs at.now }
    ensures len { out.new.len ≤ out.old.len + 1 }
{
    if wants_sib(at.base, at.index) {
        put(out, sib_of(at));
    }
}

fn put_disp(out: &mut Text, at: &Address)
    requires room { out.old.len + 4 ≤ 16 }
    ensures text { text out.new ≡ text out.old ++ spec.best_disp at.now }
    ensures len { out.new.len ≤ out.old.len + 4 }
{
    let size = best_size(at.base, class_of(at.disp));
    put_number(out, size, raw(size, at.disp));
}

fn m_of(reg_field: u8, at: &Address) -> u8
    requires { reg_field < 8 }
    ensures { result ≡ spec.best_m reg_field at.now }
{
    64 * best_mod(at.base, class_of(at.disp)) + (8 * reg_field + best_rm(at.base, at.index))
}

fn put_address(out: &mut Text, reg_field: u8, at: &Address)
    requires reg_field { reg_field < 8 }
    requires room { out.old.len + 6 ≤ 16 }
    ensures text { text out.new ≡ text out.old ++ spec.best_bytes reg_field at.now }
    ensures len { out.new.len ≤ out.old.len + 6 }
{
    put(out, m_of(reg_field, at));
    put_sib(out, at);
    put_disp(out, at);
}

/// Puts the best spelling of the operand behind the text: ModRM with that reg field, SIB where it
/// must stand, and the shortest displacement. No `rm`: any will do.
pub(crate) fn put_operand(out: &mut Text, reg_field: u8, rm: Option<Rm>)
    requires reg_field { reg_field < 8 }
    requires room { out.old.len + 6 ≤ 16 }
    ensures text { text out.new ≡ text out.old ++ form.best_operand rm reg_field }
    ensures len { out.new.len ≤ out.old.len + 6 }
{
    match rm {
        None => put(out, 8 * reg_field),
        Some(Rm::Reg(reg)) => put(out, 192 + (8 * reg_field + reg_number(reg))),
        Some(Rm::Mem(at)) => put_address(out, reg_field, &at),
    }
}
