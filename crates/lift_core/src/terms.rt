// Terms and operations of the lists.
ghost use Rattle.std.specs.Prelude.{◌≡◌};
ghost use Rattle.lift_values.specs.Terms.{set_temp, temp, to_temp, word};
ghost use Rattle.lift_core.specs.Pieces.{reg, to_reg};

use flag_ir::{Calc, Op, Term, Var};

pub(crate) fn temp(n: u32) -> Term
    ensures { result ≡ temp n }
{
    Term::Var(Var::Temp(n))
}

pub(crate) fn reg(n: u8) -> Term
    ensures { result ≡ reg n }
{
    Term::Var(Var::Reg(n))
}

pub(crate) fn word(n: u32) -> Term
    ensures { result ≡ word n }
{
    Term::Word(n)
}

pub(crate) fn set_temp(n: u32, from: Term) -> Op
    ensures { result ≡ set_temp n from }
{
    Op::Set {
        to: Var::Temp(n),
        from,
    }
}

pub(crate) fn to_temp(n: u32, calc: Calc, left: Term, right: Term) -> Op
    ensures { result ≡ to_temp n calc left right }
{
    Op::Calc {
        to: Var::Temp(n),
        calc,
        left,
        right,
    }
}

pub(crate) fn to_reg(n: u8, calc: Calc, left: Term, right: Term) -> Op
    ensures { result ≡ to_reg n calc left right }
{
    Op::Calc {
        to: Var::Reg(n),
        calc,
        left,
        right,
    }
}
