// Products.
ghost use Rattle.std.specs.Prelude.{◌≡◌, ◌<◌, ◌*◌};
ghost use Rattle.x86_values.specs.ProductLaws.{ProductLaws};
ghost use Rattle.x86_values.specs.ProductRows.{WorkedMul, WorkedByteImul, WorkedImul, UnspecifiedProducts};
ghost use Rattle.x86_values.specs.Products as spec;
ghost use Rattle.x86_values.specs.Sizes as sizes;
ghost use Rattle.x86_values.specs.Sizes.{IsSize};

use crate::operand::{double_full, operand};
use crate::size::{full, is_negative, no_flags, no_result};
use crate::word::{Flags, Word, word_of};

/// A product of twice the size of its factors, in two halves, and the flags after it.
#[derive(Clone, Copy, Debug, PartialEq, Eq)]
pub struct Product {
    pub low: Word,
    pub high: Word,
    pub flags: Flags,
}

/// The product of the lowest `size` bytes of two words (Intel SDM volume 2, "MUL", "IMUL"). CF and OF are set where the upper half
/// has bits of its own. PF, ZF and SF are unspecified; so are both halves and all flags where a byte of an operand is.
#[tactic(auto, unfolding(crate::specs::Products::multiply))]
pub fn multiply(signed: bool, size: u8, left: Word, right: Word) -> Product
    requires size { IsSize size }
    ensures exact { result ≡ spec.multiply signed size left right }
{
    match (operand(size, left), operand(size, right)) {
        (Some(left), Some(right)) => halves(
            signed,
            size,
            modular_product(signed, size, left, right),
        ),
        _ => {
            let half = no_result(size).value;
            Product {
                low: half,
                high: half,
                flags: no_flags(),
            }
        }
    }
}

// What is taken away for a factor that is negative: the other one times the range.
#[tactic(auto, using(crate::proofs::ProductLemmas::term_fits))]
fn correction(size: u8, left: u32, right: u32) -> u128
    requires size { IsSize size }
    ensures exact { result ≡ spec.correction size left right }
{
    if is_negative(size, u64::from(left)) {
        u128::from(full(size)) * u128::from(right)
    } else {
        0
    }
}

// The product of two numbers of the size, modulo the range of twice the size.
#[tactic(auto, using(crate::proofs::OperandLemmas::double_bounds, crate::proofs::ProductLemmas::correction_bounds, crate::proofs::ProductLemmas::whole_product))]
fn modular_product(signed: bool, size: u8, left: u32, right: u32) -> u128
    requires size { IsSize size }
    requires left { left < sizes.full size }
    requires right { right < sizes.full size }
    ensures exact { result ≡ spec.product signed size left right }
    ensures below { result < sizes.full size * sizes.full size }
{
    let product = u128::from(left) * u128::from(right);
    if !signed {
        return product;
    }
    let range = double_full(size);
    let corrections = correction(size, left, right) + correction(size, right, left);
    (product + 2 * range - corrections) % range
}

// What the upper half is where the lower one has all of the product.
fn upper_of(signed: bool, size: u8, low: u64) -> u64
    requires size { IsSize size }
    ensures exact { result ≡ spec.upper_of signed size low }
{
    if signed && is_negative(size, low) {
        full(size) - 1
    } else {
        0
    }
}

// The two halves of a product, and its flags.
#[tactic(auto, using(crate::proofs::ProductLemmas::half_bounds))]
fn halves(signed: bool, size: u8, product: u128) -> Product
    requires size { IsSize size }
    requires below { product < sizes.full size * sizes.full size }
    ensures exact { result ≡ spec.halves signed size product }
{
    let range = u128::from(full(size));
    let low = (product % range) as u64;
    let high = (product / range) as u64;
    let exceeds = Some(high != upper_of(signed, size, low));
    Product {
        low: word_of(low as u32),
        high: word_of(high as u32),
        flags: Flags {
            cf: exceeds,
            of: exceeds,
            ..no_flags()
        },
    }
}

/// Does nothing: its clause is the laws of products.
#[tactic(auto, using(crate::proofs::ProductLaws::product_laws))]
pub fn product_laws()
    ensures { ProductLaws }
{}

/// Does nothing: its clauses are worked rows of products.
#[tactic(auto, using(crate::proofs::ProductRows::worked_mul, crate::proofs::ProductRows::worked_byte_imul, crate::proofs::ProductRows::worked_imul, crate::proofs::ProductRows::unspecified_products))]
pub fn worked_products()
    ensures mul { WorkedMul }
    ensures byte_imul { WorkedByteImul }
    ensures imul { WorkedImul }
    ensures unspecified { UnspecifiedProducts }
{}
