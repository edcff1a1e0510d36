// How an instruction goes on behind its list of operations.
use flag_ir::Term;

/// How an instruction goes on. Terms are read after the list, except the first term of `Repeat`; addresses are old ones.
#[derive(Clone, Copy, Debug, PartialEq, Eq)]
pub enum Way {
    /// To an address.
    On(u32),
    /// To the first address where the term isn't 0, else to the second.
    Either(Term, u32, u32),
    /// A string instruction with a repeat. Its first term, the count, is read before the list: where it is 0 the list isn't run, and the
    /// run goes on at the second address. Else the list is one iteration, and the run goes on at the first address where the second
    /// term isn't 0, else at the second.
    Repeat(Term, Term, u32, u32),
    /// To the address that the term is.
    To(Term),
    /// To the address that RET popped.
    Back(Term),
}
