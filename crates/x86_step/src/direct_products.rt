// Products of whole words that are known, made directly.
ghost use Rattle.std.specs.Prelude.{◌≡◌, ◌*◌, ◌<◌, [], ◌∷◌, true, IfSome};
ghost use Rattle.mem_pages.specs.Accesses.{KeepsPages};
ghost use Rattle.mem_pages.specs.Contents.{memory_in};
ghost use Rattle.x86_types.specs.declared.instr.Instr.TheVariants as instr;
ghost use Rattle.x86_types.specs.declared.width.Width.TheVariants as widths;
ghost use Rattle.x86_values.specs.Products as products;
ghost use Rattle.x86_meaning.specs.Outcomes as outcomes;
ghost use Rattle.x86_step.specs.Making.{FastOrStays};

use crate::direct_values::word_at;
use crate::make::make_register;
use crate::numbers::{number_in, word_with};
use crate::operand::word_in;
use crate::outcome::Way;
use mem_pages::Pages;
use x86_meaning::{Cpu, step_laws};
use x86_types::{Reg, Rm};
use x86_values::{Flags, Word};

// The lower half of a signed product of two words that are known, and the flags after it.
#[derive(Clone, Copy)]
struct LowHalf {
    low: Word,
    flags: Flags,
}

// Where a factor is negative, the other one is taken from the upper half.
#[inline(always)]
fn taken(x: u32, y: u32) -> u64
    ensures exact { 4294967296 * result ≡ products.correction 4 x y }
    ensures bound { result < 4294967296 }
{
    if x >= 0x8000_0000 { y as u64 } else { 0 }
}

// The signed product of two numbers.
#[inline(always)]
fn low_half(x: u32, y: u32) -> LowHalf
    ensures low { result.low ≡ (products.halves true 4 (products.product true 4 x y)).low }
    ensures flags { result.flags ≡ (products.halves true 4 (products.product true 4 x y)).flags }
{
    let product = x as u64 * y as u64;
    let low = product % 0x1_0000_0000;
    let high = (product / 0x1_0000_0000 + 0x2_0000_0000 - (taken(x, y) + taken(y, x)))
        % 0x1_0000_0000;
    let sign = if low >= 0x8000_0000 { 0xFFFF_FFFF } else { 0 };
    let exceeds = Some(high != sign);
    LowHalf {
        low: word_with(low as u32),
        flags: Flags {
            cf: exceeds,
            pf: None,
            zf: None,
            sf: None,
            of: exceeds,
        },
    }
}

// The product of two words, where both are known.
#[inline(always)]
fn product_of(x: Word, y: Word) -> Option<LowHalf>
    ensures { IfSome result (λ h. outcomes.computed (h.low ∷ []) h.flags outcomes.Falls ≡ outcomes.imul_computed 4 x y) }
{
    match (number_in(x), number_in(y)) {
        (Some(x), Some(y)) => Some(low_half(x, y)),
        _ => None,
    }
}

/// IMUL of a register by an operand; false where it isn't made here, and nothing has changed.
#[inline(always)]
pub(crate) fn imul_register(to: Reg, from: Rm, len: u8, cpu: &mut Cpu, mem: &mut Pages) -> bool
    ensures fast { FastOrStays (instr.Imul widths.Four to from) len result cpu.old (memory_in mem.old) cpu.new (memory_in mem.new) }
    ensures keeps { KeepsPages mem.old mem.new }
{
    step_laws();
    let x = word_in(cpu, to);
    match word_at(cpu, mem, from) {
        None => false,
        Some(y) => match product_of(x, y) {
            None => false,
            Some(half) => make_register(to, half.low, half.flags, Way::Falls, len, cpu, mem),
        },
    }
}

/// IMUL of an operand by a constant; false where it isn't made here, and nothing has changed.
#[inline(always)]
pub(crate) fn imul_by(to: Reg, from: Rm, by: u32, len: u8, cpu: &mut Cpu, mem: &mut Pages) -> bool
    ensures fast { FastOrStays (instr.ImulBy widths.Four to from by) len result cpu.old (memory_in mem.old) cpu.new (memory_in mem.new) }
    ensures keeps { KeepsPages mem.old mem.new }
{
    step_laws();
    let y = word_with(by);
    match word_at(cpu, mem, from) {
        None => false,
        Some(x) => match product_of(x, y) {
            None => false,
            Some(half) => make_register(to, half.low, half.flags, Way::Falls, len, cpu, mem),
        },
    }
}
