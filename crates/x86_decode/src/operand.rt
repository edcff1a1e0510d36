ghost use Rattle.std.specs.Prelude.{◌≡◌, ◌<◌, ◌≤◌, ◌^◌};
ghost use Rattle.x86_grammar.specs.Operand as spec;

use x86_grammar::signed;
use x86_types::{Address, Reg, Rm, Width, reg_at};

/// Whether SIB stands behind that ModRM.
pub(crate) fn has_sib(m: u8) -> bool
    ensures { result ≡ spec.has_sib m }
{
    m < 0xC0 && m % 8 == 4
}

fn low_of(m: u8, sib: u8) -> u8
    ensures { result ≡ spec.low_of m sib }
{
    if has_sib(m) { sib % 8 } else { m % 8 }
}

/// The bytes of the displacement, by mod and whether the base's field is 5.
pub(crate) fn mod_size(mode: u8, five: bool) -> u8
    ensures size { result ≡ spec.mod_size mode five }
    ensures few { result ≤ 4 }
{
    match mode {
        0 => { if five { 4 } else { 0 } }
        1 => 1,
        2 => 4,
        _ => 0,
    }
}

/// The bytes of the displacement.
pub(crate) fn disp_size(m: u8, sib: u8) -> u8
    ensures size { result ≡ spec.disp_size m sib }
    ensures few { result ≤ 4 }
{
    mod_size(m / 64, low_of(m, sib) == 5)
}

fn disp_of(size: u8, disp: u32) -> u32
    requires fits { disp < 256 ^ size }
    ensures { result ≡ spec.disp_of size disp }
{
    if size == 1 {
        signed(Width::Four, disp as u8)
    } else {
        disp
    }
}

fn base_of(m: u8, sib: u8) -> Option<Reg>
    ensures { result ≡ spec.base_of m sib }
{
    let low = low_of(m, sib);
    if m / 64 == 0 && low == 5 {
        None
    } else {
        Some(reg_at(low))
    }
}

fn index_of(m: u8, sib: u8) -> Option<Reg>
    ensures { result ≡ spec.index_of m sib }
{
    if !has_sib(m) {
        return None;
    }
    let number = sib / 8 % 8;
    if number == 4 {
        None
    } else {
        Some(reg_at(number))
    }
}

fn scale_of(index: Option<Reg>, sib: u8) -> u8
    ensures { result ≡ spec.scale_of index sib }
{
    match index {
        None => 1,
        Some(_) => match sib / 64 {
            0 => 1,
            1 => 2,
            2 => 4,
            _ => 8,
        },
    }
}

/// What ModRM, SIB and the displacement name; 0 stands for a SIB that isn't there.
pub(crate) fn rm_of(m: u8, sib: u8, disp: u32) -> Rm
    requires fits { disp < 256 ^ spec.disp_size m sib }
    ensures { result ≡ spec.rm_of m sib disp }
{
    if m < 0xC0 {
        let index = index_of(m, sib);
        Rm::Mem(Address {
            base: base_of(m, sib),
            index,
            scale: scale_of(index, sib),
            disp: disp_of(disp_size(m, sib), disp),
        })
    } else {
        Rm::Reg(reg_at(m % 8))
    }
}
