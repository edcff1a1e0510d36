// Found code that is made by hand.
ghost use Rattle.std.specs.Prelude.{◌≡◌, [], IfOk};
ghost use Rattle.plan_types.specs.Ascending.{addresses_of};
ghost use Rattle.plan_types.specs.Worked.{worked_addresses, worked_procedures};

use crate::{AddressList, Found, Place, PlaceList, TableList};
use std::alloc::{AllocError, Global};
use x86_types::{Address, AluOp, Instr, Reg, Rm, Src, Width};

// The word so many bytes above esp.
fn on_stack(disp: u32) -> Src {
    Src::Mem(Address {
        base: Some(Reg::Esp),
        index: None,
        scale: 1,
        disp,
    })
}

// ADD of four bytes.
fn add(to: Reg, from: Src) -> Instr {
    Instr::Alu {
        op: AluOp::Add,
        width: Width::Four,
        to: Rm::Reg(to),
        from,
    }
}

// MOV of four bytes.
fn mov(to: Reg, from: Src) -> Instr {
    Instr::Mov {
        width: Width::Four,
        to: Rm::Reg(to),
        from,
    }
}

fn place(at: u32, instr: Instr, len: u8) -> Place
    ensures { result ≡ record { at = at; instr = instr; len = len } }
{
    Place { at, instr, len }
}

fn worked_places() -> [Place; 10]
    ensures { addresses_of result ≡ worked_addresses }
{
    [
        place(0x08049000, Instr::Push { from: Src::Imm(3) }, 2),
        place(0x08049002, Instr::Push { from: Src::Imm(2) }, 2),
        place(0x08049004, Instr::Call { by: 0xD }, 5),
        place(0x08049009, add(Reg::Esp, Src::Imm(8)), 3),
        place(0x0804900C, mov(Reg::Ebx, Src::Reg(Reg::Eax)), 2),
        place(0x0804900E, mov(Reg::Eax, Src::Imm(1)), 5),
        place(0x08049013, Instr::Int80, 2),
        place(0x08049016, mov(Reg::Eax, on_stack(4)), 4),
        place(0x0804901A, add(Reg::Eax, on_stack(8)), 4),
        place(0x0804901E, Instr::Ret { drop: 0 }, 1),
    ]
}

/// The found code of a program that adds 3 and 2 in a procedure, and ends with the sum.
#[tactic(auto, using(crate::proofs::WorkedOrder::worked_ascends))]
pub fn worked_found(alloc: Global) -> Result<Found, AllocError>
    ensures code { IfOk result (λ found. addresses_of found.code ≡ worked_addresses) }
    ensures procedures { IfOk result (λ found. found.procs ≡ worked_procedures) }
    ensures tables { IfOk result (λ found. found.tables ≡ []) }
{
    Ok(Found {
        code: PlaceList::new(Vec::from_array(alloc, worked_places())?),
        procs: AddressList::new(Vec::from_array(alloc, [0x08049000, 0x08049016])?),
        tables: TableList::new(Vec::new(alloc)),
    })
}
