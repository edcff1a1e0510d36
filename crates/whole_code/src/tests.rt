// What no clause says: that the blocks are made with ample memory, and which they are where an instruction leads out of the found code.
ghost use Rattle.std.specs.Prelude.{◌≡◌, [], ◌∷◌, IfOk};
ghost use Rattle.plan_types.specs.Ascending.{addresses_of};
ghost use Rattle.whole_code.specs.Above.{NoneAtZero};

use crate::whole;
use flag_ir::{Exit, Term, Var};
use plan_types::{AddressList, Found, Place, PlaceList, TableList};
use std::alloc::{AllocError, Global};
use std::test::Fail;
use x86_types::{Cond, Instr, Width};

// REP MOVSB, and a jump back to it where ZF is set; nothing is found behind that.
fn copies() -> [Place; 2]
    ensures { addresses_of result ≡ 0x08049000 ∷ 0x08049002 ∷ [] }
{
    [
        Place {
            at: 0x08049000,
            instr: Instr::Movs {
                width: Width::One,
                repeat: true,
            },
            len: 2,
        },
        Place {
            at: 0x08049002,
            instr: Instr::Jcc {
                cond: Cond::E,
                by: 0xFFFFFFFC,
            },
            len: 2,
        },
    ]
}

fn copying(alloc: Global) -> Result<Found, AllocError>
    ensures { IfOk result NoneAtZero }
{
    Ok(Found {
        code: PlaceList::new(Vec::from_array(alloc, copies())?),
        procs: AddressList::new(Vec::new(alloc)),
        tables: TableList::new(Vec::new(alloc)),
    })
}

#[test]
fn makes_blocks(rt: HostRuntime) -> Result<(), Fail> {
    let found = copying(rt.alloc())?;
    let unit = whole(rt.alloc(), &found)?;
    let blocks = unit.whole.as_slice();
    assert_eq!(rt; blocks.len(), 4);
    let repeat = Exit::Branch {
        test: Term::Var(Var::Reg(1)),
        yes: 2,
        no: 1,
    };
    assert_eq!(rt; blocks[0].exit, repeat);
    let jump = Exit::Branch {
        test: Term::Var(Var::Temp(4)),
        yes: 0,
        no: 3,
    };
    assert_eq!(rt; blocks[1].exit, jump);
    let again = Exit::Branch {
        test: Term::Word(1),
        yes: 0,
        no: 1,
    };
    assert_eq!(rt; blocks[2].exit, again);
    assert_eq!(rt; blocks[2].ops.as_slice().len(), 5);
    let out = Exit::Jump {
        to: Term::Word(0x08049004),
    };
    assert_eq!(rt; blocks[3].exit, out);
    Ok(())
}
