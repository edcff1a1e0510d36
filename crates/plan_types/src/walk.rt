// The body of a procedure.
ghost use Rattle.std.specs.Prelude.{IfOk};
ghost use Rattle.plan_types.specs.Body.{IsBody};

use crate::reached::Reached;
use crate::{AddressList, Found};
use std::alloc::{AllocError, Global};

/// The body of the procedure at an address: the addresses of the found code that is reached from there without entering a call,
/// ascending. It is empty where no instruction is found there. It follows each instruction once, in as many searches as there are
/// places at which the code goes on.
pub fn body(alloc: Global, found: &Found, entry: u32) -> Result<AddressList, AllocError>
    ensures { IfOk result (λ addresses. IsBody found.now entry addresses) }
{
    let code = found.code.as_slice();
    let mut reached = Reached::new(alloc, code.len())?;
    reached.add_address(code, entry as u64)?;
    for turn in 0..code.len() {
        if let Some(index) = reached.index_at(turn) {
            reached.add_successors(found, &code[index])?;
        }
    }
    Ok(AddressList::new(reached.addresses(alloc, code)?))
}
