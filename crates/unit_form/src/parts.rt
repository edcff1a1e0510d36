// Operations and exits in form.
ghost use Rattle.std.specs.Prelude.{◌≡◌, ◌&&◌};
ghost use Rattle.unit_form.specs.Fits as spec;

use flag_ir::{Exit, Op, Proc, Term, Var};

pub(crate) fn size_fits(size: u8) -> bool
    ensures { result ≡ spec.size_fits size }
{
    size == 1 || size == 2 || size == 4
}

fn var_fits(locals: usize, var: Var) -> bool
    ensures { result ≡ spec.var_fits locals var }
{
    match var {
        Var::Reg(n) => n < 8,
        Var::Flag(n) => n < 5,
        Var::Temp(_) => true,
        Var::Local(n) => (n as usize) < locals,
    }
}

fn term_fits(locals: usize, term: Term) -> bool
    ensures { result ≡ spec.term_fits locals term }
{
    match term {
        Term::Var(var) => var_fits(locals, var),
        Term::Word(_) => true,
    }
}

fn two_fit(locals: usize, first: Term, second: Term) -> bool
    ensures { result ≡ (spec.term_fits locals first && spec.term_fits locals second) }
{
    term_fits(locals, first) && term_fits(locals, second)
}

fn division_fits(locals: usize, high: Term, low: Term, by: Term, size: u8) -> bool
    ensures { result ≡ (spec.term_fits locals high && (spec.term_fits locals low && (spec.term_fits locals by && spec.size_fits size))) }
{
    term_fits(locals, high)
        && (term_fits(locals, low) && (term_fits(locals, by) && size_fits(size)))
}

// Whether an operation names registers, flags and locals that are there, and has a size of 1, 2 or 4 bytes.
pub(crate) fn op_fits(locals: usize, op: Op) -> bool
    ensures { result ≡ spec.op_fits locals op }
{
    match op {
        Op::Set { to, from } => var_fits(locals, to) && term_fits(locals, from),
        Op::Calc {
            to,
            left,
            right,
            ..
        } => var_fits(locals, to) && two_fit(locals, left, right),
        Op::Forget { to } => var_fits(locals, to),
        Op::Pick { to, test, yes, no } => {
            var_fits(locals, to) && (term_fits(locals, test) && two_fit(locals, yes, no))
        }
        Op::Need { from } => term_fits(locals, from),
        Op::Divide {
            quotient,
            remainder,
            high,
            low,
            by,
            size,
            ..
        } => {
            var_fits(locals, quotient)
                && (var_fits(locals, remainder) && division_fits(locals, high, low, by, size))
        }
        Op::Load { to, size, at } | Op::NearLoad { to, size, at } => {
            var_fits(locals, to) && (size_fits(size) && term_fits(locals, at))
        }
        Op::Store { size, at, from } | Op::NearStore { size, at, from } => {
            size_fits(size) && two_fit(locals, at, from)
        }
        Op::Get { to, size, .. } => var_fits(locals, to) && size_fits(size),
        Op::Put { size, from, .. } => size_fits(size) && term_fits(locals, from),
        Op::System | Op::NearSystem => true,
    }
}

pub(crate) fn op_needs_no_frame(op: Op) -> bool
    ensures { result ≡ spec.needs_no_frame op }
{
    match op {
        Op::NearLoad { .. }
        | Op::NearStore { .. }
        | Op::Get { .. }
        | Op::Put { .. }
        | Op::NearSystem => false,
        Op::Set { .. }
        | Op::Calc { .. }
        | Op::Forget { .. }
        | Op::Pick { .. }
        | Op::Need { .. }
        | Op::Divide { .. }
        | Op::Load { .. }
        | Op::Store { .. }
        | Op::System => true,
    }
}

pub(crate) fn leaves_no_frame(exit: Exit) -> bool
    ensures { result ≡ spec.leaves_no_frame exit }
{
    match exit {
        Exit::CallProc { .. } | Exit::Return => false,
        Exit::Go(_) | Exit::Branch { .. } | Exit::Jump { .. } | Exit::Fault | Exit::Stop => true,
    }
}

fn has_entry(procs: &[Proc], entry: u32) -> bool
    ensures { result ≡ spec.has_entry entry procs.now }
{
    procs.iter().any(|proc| proc.entry == entry)
}

// Whether an exit names blocks, of so many, and entries that are there.
pub(crate) fn exit_fits(locals: usize, blocks: usize, procs: &[Proc], exit: Exit) -> bool
    ensures { result ≡ spec.exit_fits locals blocks procs.now exit }
{
    match exit {
        Exit::Go(number) => (number as usize) < blocks,
        Exit::Branch { test, yes, no } => {
            term_fits(locals, test) && ((yes as usize) < blocks && (no as usize) < blocks)
        }
        Exit::Jump { to } => term_fits(locals, to),
        Exit::CallProc { entry, back } => has_entry(procs, entry) && (back as usize) < blocks,
        Exit::Return | Exit::Fault | Exit::Stop => true,
    }
}
