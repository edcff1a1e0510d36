// Terms, operations on temporaries and flags, and the constants of each width.
ghost use Rattle.std.specs.Prelude.{◌≡◌};
ghost use Rattle.x86_types.specs.Numbers.{size_of};
ghost use Rattle.lift_values.specs.Terms.{width_bits, flag, mask, pick_flag, pick_temp, set_flag, set_temp, temp, to_flag, to_temp, top, top_mask, word};

use flag_ir::{Calc, Op, Term, Var};
use x86_types::Width;

pub(crate) fn temp(n: u32) -> Term
    ensures { result ≡ temp n }
{
    Term::Var(Var::Temp(n))
}

pub(crate) fn flag(n: u8) -> Term
    ensures { result ≡ flag n }
{
    Term::Var(Var::Flag(n))
}

pub(crate) fn word(n: u32) -> Term
    ensures { result ≡ word n }
{
    Term::Word(n)
}

pub(crate) fn to_temp(n: u32, calc: Calc, left: Term, right: Term) -> Op
    ensures { result ≡ to_temp n calc left right }
{
    Op::Calc {
        to: Var::Temp(n),
        calc,
        left,
        right,
    }
}

pub(crate) fn to_flag(n: u8, calc: Calc, left: Term, right: Term) -> Op
    ensures { result ≡ to_flag n calc left right }
{
    Op::Calc {
        to: Var::Flag(n),
        calc,
        left,
        right,
    }
}

pub(crate) fn set_temp(n: u32, from: Term) -> Op
    ensures { result ≡ set_temp n from }
{
    Op::Set {
        to: Var::Temp(n),
        from,
    }
}

pub(crate) fn set_flag(n: u8, from: Term) -> Op
    ensures { result ≡ set_flag n from }
{
    Op::Set {
        to: Var::Flag(n),
        from,
    }
}

pub(crate) fn pick_temp(n: u32, test: Term, yes: Term, no: Term) -> Op
    ensures { result ≡ pick_temp n test yes no }
{
    Op::Pick {
        to: Var::Temp(n),
        test,
        yes,
        no,
    }
}

pub(crate) fn pick_flag(n: u8, test: Term, yes: Term, no: Term) -> Op
    ensures { result ≡ pick_flag n test yes no }
{
    Op::Pick {
        to: Var::Flag(n),
        test,
        yes,
        no,
    }
}

/// The greatest number of a width.
pub(crate) fn mask(width: Width) -> u32
    ensures { result ≡ mask width }
{
    match width {
        Width::One => 0xFF,
        Width::Two => 0xFFFF,
        Width::Four => 0xFFFFFFFF,
    }
}

/// The place of the highest bit.
pub(crate) fn top(width: Width) -> u32
    ensures { result ≡ top width }
{
    match width {
        Width::One => 7,
        Width::Two => 15,
        Width::Four => 31,
    }
}

/// How many bits a width has.
pub(crate) fn width_bits(width: Width) -> u32
    ensures { result ≡ width_bits width }
{
    match width {
        Width::One => 8,
        Width::Two => 16,
        Width::Four => 32,
    }
}

/// The ones of the highest byte of a width.
pub(crate) fn top_mask(width: Width) -> u32
    ensures { result ≡ top_mask width }
{
    match width {
        Width::One => 0xFF,
        Width::Two => 0xFF00,
        Width::Four => 0xFF000000,
    }
}

/// The bytes of a width.
pub(crate) fn size_of(width: Width) -> u8
    ensures { result ≡ size_of width }
{
    match width {
        Width::One => 1,
        Width::Two => 2,
        Width::Four => 4,
    }
}
