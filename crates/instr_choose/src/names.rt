// Where variables live.
ghost use Rattle.std.specs.Prelude.{◌≡◌};
ghost use Rattle.instr_choose.specs.Blocks.{VarHasName, TermHasName};
ghost use Rattle.instr_choose.specs.Lists.{is_of, name_of, slot_of};

use flag_ir::{Term, Var};
use named_code::Slot;

/// The name of a variable: registers are the names 0 to 7, flags 8 to 12, and temporaries follow. A lowered unit has no locals.
pub(crate) fn name_of(var: Var) -> u32
    requires { VarHasName var }
    ensures { result ≡ name_of var }
{
    match var {
        Var::Reg(n) => u32::from(n),
        Var::Flag(n) => 8 + u32::from(n),
        Var::Temp(n) => 13 + n,
        Var::Local(_) => 0,
    }
}

pub(crate) fn slot_of(var: Var) -> Slot
    requires { VarHasName var }
    ensures { result ≡ slot_of var }
{
    Slot::Name(name_of(var))
}

/// Whether a term is the variable.
pub(crate) fn is_of(var: Var, term: Term) -> bool
    requires variable { VarHasName var }
    requires term { TermHasName term }
    ensures { result ≡ is_of var term }
{
    match term {
        Term::Var(other) => name_of(other) == name_of(var),
        Term::Word(_) => false,
    }
}
