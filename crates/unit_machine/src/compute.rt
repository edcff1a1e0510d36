// Operations that make no call and need no frame.
ghost use Rattle.std.specs.Prelude.{◌≡◌, false};
ghost use Rattle.mem_pages.specs.Contents.{memory_in};
ghost use Rattle.x86_values.specs.Sizes.{IsSize};
ghost use Rattle.flag_ir.specs.declared.operation.Op.TheVariants as ops;
ghost use Rattle.flag_ir.specs.Form.{IsFrameless, IsOp, IsTerm, IsVar};
ghost use Rattle.flag_ir.specs.Operations as spec;
ghost use Rattle.memory.specs.Memory.{Memory};
ghost use Rattle.unit_machine.specs.Computing as computing;
ghost use Rattle.unit_machine.specs.Computing.{ComesOut, Computes};

use crate::calculate::calculate;
use crate::values::{Values, no_word};
use flag_ir::{Calc, Op, Term, Var};
use mem_pages::{PageFault, Pages, RunEnd};
use std::alloc::AllocError;
use x86_values::{Divided, Word, divide, known};

/// What an operation comes to: the run goes on, or it ends so.
pub(crate) type Computed = Result<Option<RunEnd>, AllocError>;

// The word that a variable is made by an operation that only puts.
fn set(to: Var, from: Term, values: &mut Values) -> Computed
    requires to { IsVar 0 to }
    requires from { IsTerm 0 from }
    ensures { (m : Memory) → Computes (ops.Set to from) result values.old m values.new m }
{
    let word = values.term(from);
    values.put(to, word)?;
    Ok(None)
}

fn calc(to: Var, calc: Calc, left: Term, right: Term, values: &mut Values) -> Computed
    requires to { IsVar 0 to }
    requires left { IsTerm 0 left }
    requires right { IsTerm 0 right }
    ensures { (m : Memory) → Computes (ops.Calc to calc left right) result values.old m values.new m }
{
    let word = calculate(calc, values.term(left), values.term(right));
    values.put(to, word)?;
    Ok(None)
}

fn forget(to: Var, values: &mut Values) -> Computed
    requires { IsVar 0 to }
    ensures { (m : Memory) → Computes (ops.Forget to) result values.old m values.new m }
{
    values.put(to, no_word())?;
    Ok(None)
}

// The one of two words that a test takes.
fn picked(test: Option<u32>, yes: Word, no: Word) -> Word
    ensures { result ≡ spec.picked test yes no }
{
    match test {
        None => no_word(),
        Some(0) => no,
        Some(_) => yes,
    }
}

fn pick(to: Var, test: Term, yes: Term, no: Term, values: &mut Values) -> Computed
    requires to { IsVar 0 to }
    requires test { IsTerm 0 test }
    requires yes { IsTerm 0 yes }
    requires no { IsTerm 0 no }
    ensures { (m : Memory) → Computes (ops.Pick to test yes no) result values.old m values.new m }
{
    let test = known(values.term(test));
    let word = picked(test, values.term(yes), values.term(no));
    values.put(to, word)?;
    Ok(None)
}

fn need(from: Term, values: &Values) -> Computed
    requires { IsTerm 0 from }
    ensures { (m : Memory) → Computes (ops.Need from) result values.now m values.now m }
{
    match known(values.term(from)) {
        None => Ok(Some(RunEnd::Unspecified)),
        Some(_) => Ok(None),
    }
}

fn load(to: Var, size: u8, at: Term, values: &mut Values, pages: &Pages) -> Computed
    requires to { IsVar 0 to }
    requires size { IsSize size }
    requires at { IsTerm 0 at }
    ensures { Computes (ops.Load to size at) result values.old (memory_in pages.now) values.new (memory_in pages.now) }
{
    match known(values.term(at)) {
        None => Ok(Some(RunEnd::Unspecified)),
        Some(at) => match pages.load(at, size) {
            None => Ok(Some(RunEnd::MemoryFault)),
            Some(word) => {
                values.put(to, word)?;
                Ok(None)
            }
        },
    }
}

fn store(size: u8, at: Term, from: Term, values: &Values, pages: &mut Pages) -> Computed
    requires size { IsSize size }
    requires at { IsTerm 0 at }
    requires from { IsTerm 0 from }
    ensures { Computes (ops.Store size at from) result values.now (memory_in pages.old) values.now (memory_in pages.new) }
{
    let word = values.term(from);
    match known(values.term(at)) {
        None => Ok(Some(RunEnd::Unspecified)),
        Some(at) => match pages.store(at, size, word) {
            Ok(()) => Ok(None),
            Err(PageFault::Memory) => Err(AllocError),
            Err(PageFault::NotMapped) => Ok(Some(RunEnd::MemoryFault)),
            Err(PageFault::NotWritable) => Ok(Some(RunEnd::MemoryFault)),
        },
    }
}

// Quotient and remainder are put, in this order.
fn put_divided(quotient: Var, remainder: Var, divided: Divided, values: &mut Values) -> Computed
    requires quotient { IsVar 0 quotient }
    requires remainder { IsVar 0 remainder }
    ensures { (m : Memory) → ComesOut (spec.divided_into divided quotient remainder) result values.old m values.new m }
{
    match divided {
        Divided::Fault => Ok(Some(RunEnd::DivideFault)),
        Divided::Unspecified => Ok(Some(RunEnd::Unspecified)),
        Divided::Got(number, rest) => {
            values.put(quotient, number)?;
            values.put(remainder, rest)?;
            Ok(None)
        }
    }
}

/// Whether an operation is a system call.
pub(crate) fn is_system(op: &Op) -> bool
    ensures { result ≡ computing.is_system op.now }
{
    matches!(op, Op::System)
}

/// Performs an operation that makes no call and needs no frame.
pub(crate) fn compute(op: &Op, values: &mut Values, pages: &mut Pages) -> Computed
    requires form { IsOp 0 op.now }
    requires frameless { IsFrameless op.now }
    requires no_call { computing.is_system op.now ≡ false }
    ensures { Computes op.now result values.old (memory_in pages.old) values.new (memory_in pages.new) }
{
    match *op {
        Op::Set { to, from } => set(to, from, values),
        Op::Calc {
            to,
            calc: kind,
            left,
            right,
        } => calc(to, kind, left, right, values),
        Op::Forget { to } => forget(to, values),
        Op::Pick { to, test, yes, no } => pick(to, test, yes, no, values),
        Op::Need { from } => need(from, values),
        Op::Divide {
            quotient,
            remainder,
            high,
            low,
            by,
            size,
            signed,
        } => {
            let divided = divide(
                signed,
                size,
                values.term(high),
                values.term(low),
                values.term(by),
            );
            put_divided(quotient, remainder, divided, values)
        }
        Op::Load { to, size, at } => load(to, size, at, values, pages),
        Op::Store { size, at, from } => store(size, at, from, values, pages),
        Op::NearLoad { .. } => Ok(None),
        Op::NearStore { .. } => Ok(None),
        Op::Get { .. } => Ok(None),
        Op::Put { .. } => Ok(None),
        Op::System => Ok(None),
        Op::NearSystem => Ok(None),
    }
}
