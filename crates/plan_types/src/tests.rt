// What no clause says: that the allocating calls succeed with ample memory, and what they give of a program.
use crate::{body, place_at, worked_found};
use std::test::Fail;

#[test]
fn walks_bodies(rt: HostRuntime) -> Result<(), Fail> {
    let found = worked_found(rt.alloc())?;
    assert_eq!(rt; place_at(&found, 0x08049016), Some(7));
    assert_eq!(rt; place_at(&found, 0x08049015), None);
    let callee = body(rt.alloc(), &found, 0x08049016)?;
    assert_eq!(rt;
        callee.as_slice(),
        [0x08049016, 0x0804901A, 0x0804901E].as_slice()
    );
    let before = [
        0x08049000, 0x08049002, 0x08049004, 0x08049009, 0x0804900C, 0x0804900E, 0x08049013,
    ];
    let caller = body(rt.alloc(), &found, 0x08049000)?;
    assert_eq!(rt; caller.as_slice(), before.as_slice());
    let none = body(rt.alloc(), &found, 0x08049001)?;
    assert_eq!(rt; none.as_slice().len(), 0);
    Ok(())
}
