// What no clause says: that lists are made where there is memory, inline and beyond.
use crate::lift;
use std::test::Fail;
use x86_types::{Address, Instr, Reg, Rm, Src, Width};

#[test]
fn makes_lists(rt: HostRuntime) -> Result<(), Fail> {
    let push = Instr::Push {
        from: Src::Mem(Address {
            base: Some(Reg::Esp),
            index: None,
            scale: 1,
            disp: 4,
        }),
    };
    let ops = lift(rt.alloc(), &push, 0x08049000, 4)?;
    assert_eq!(rt; ops.len(), 4);
    let inc = Instr::Inc {
        width: Width::Four,
        to: Rm::Reg(Reg::Eax),
    };
    let ops = lift(rt.alloc(), &inc, 0x08049000, 1)?;
    assert_eq!(rt; ops.len(), 17);
    let ops = lift(rt.alloc(), &Instr::Nop, 0x08049000, 1)?;
    assert_eq!(rt; ops.len(), 0);
    Ok(())
}
