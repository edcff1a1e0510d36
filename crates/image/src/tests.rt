// What no clause says: what stands at the first and last addresses of an image that is made by hand.
use crate::{byte_at, can_run, worked_image};
use std::test::Fail;

#[test]
fn finds_what_stands_at_an_address(rt: HostRuntime) -> Result<(), Fail> {
    let image = worked_image(rt.alloc())?;
    assert_eq!(rt; image.segments.as_slice().len(), 2);
    for (at, byte, runs) in [
        (0xFFF, None, false),
        (0x1000, Some(0xC3), true),
        (0x1FFF, Some(0xC3), true),
        (0x2000, Some(0), true),
        (0x3000, Some(0), false),
        (0x3FFF, Some(0), false),
        (0x4000, None, false),
        (0xFFFFFFFF, None, false),
    ] {
        assert_eq!(rt; byte_at(&image, at), byte, "{at}");
        assert_eq!(rt; can_run(&image, at), runs, "{at}");
    }
    Ok(())
}
