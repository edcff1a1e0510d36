// What no clause says: that an instruction is decoded once.
use crate::kept::KeptCode;
use image::worked_image;
use std::test::Fail;

#[test]
fn keeps_what_it_decodes(rt: HostRuntime) -> Result<(), Fail> {
    let alloc = rt.alloc();
    let image = worked_image(alloc)?;
    let mut code = KeptCode::new(alloc, &image)?;
    for (at, found) in [
        (0x1000, Some(0)),
        (0x1FFF, Some(1)),
        (0x1000, Some(0)),
        (0x2FFF, None),
        (0x3000, None),
        (0x11000, None),
        (0x1FFF, Some(1)),
    ] {
        assert_eq!(rt; code.fetch(at)?, found, "{at}");
    }
    Ok(())
}
