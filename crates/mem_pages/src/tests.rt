// Each call that allocates, once.
use crate::{PageFault, Pages};
use std::test::Fail;
use x86_values::{Byte, known, word_of};

// The last of four bytes that are lent, of which the first is changed.
fn last_of_lent(pages: &mut Pages) -> Result<Byte, PageFault> {
    match pages.can_lend_mut(4092, 4) {
        Ok(()) => {
            let part = pages.lend_mut(4092, 4);
            part[0] = Byte::Known(9);
            Ok(part[3])
        }
        Err(fault) => Err(fault),
    }
}

#[test]
fn a_region(rt: HostRuntime) -> Result<(), Fail> {
    let mut pages = Pages::new(rt.alloc());
    pages.add_region(4000, 9000, true, Byte::Known(7))?;
    assert_eq!(rt; pages.read(8999), Ok(Byte::Known(7)));
    assert_eq!(rt; pages.read(9000), Err(PageFault::NotMapped));
    assert_eq!(rt; pages.any_byte(8999), Some(Byte::Known(7)));
    assert_eq!(rt; pages.any_byte(4_294_976_295), None);
    pages.write(4095, Byte::Known(1)).ok().ok_or("write")?;
    pages
        .store(4094, 4, word_of(0x0403_0201))
        .ok()
        .ok_or("store")?;
    assert_eq!(rt; pages.read(4095), Ok(Byte::Known(2)));
    let loaded = pages.load(4094, 4).ok_or("load")?;
    assert_eq!(rt; known(loaded), Some(0x0403_0201));
    pages.replace(8001, Byte::Unspecified)?;
    assert_eq!(rt; pages.read(8001), Ok(Byte::Unspecified));
    pages.replace(9000, Byte::Known(3))?;
    assert_eq!(rt; pages.read(9000), Err(PageFault::NotMapped));
    pages.keep(8000, 200)?;
    pages.fill(8190, &[5, 6, 8]).ok().ok_or("fill")?;
    let mut copied = [0; 3];
    assert!(rt; pages.copy_known(8190, &mut copied));
    assert_eq!(rt; copied[2], 8);
    assert_eq!(rt; pages.lend(8190, 2).is_ok(), true);
    assert_eq!(rt; pages.lend(9000, 1).is_ok(), false);
    assert_eq!(rt; last_of_lent(&mut pages), Ok(Byte::Known(2)));
    assert_eq!(rt; pages.read(4092), Ok(Byte::Known(9)));
    assert_eq!(rt; pages.read(4093), Ok(Byte::Known(7)));
    assert_eq!(rt; pages.can_lend_mut(9000, 1), Err(PageFault::NotMapped));
    Ok(())
}

#[test]
fn a_stack(rt: HostRuntime) -> Result<(), Fail> {
    let mut pages = Pages::new(rt.alloc());
    pages.add_region(16384, 24576, true, Byte::Unspecified)?;
    pages.store(20478, 4, word_of(9)).ok().ok_or("push")?;
    pages.forget_below(20480);
    assert_eq!(rt; pages.read(20479), Ok(Byte::Unspecified));
    assert_eq!(rt; pages.read(20481), Ok(Byte::Known(0)));
    pages
        .write(16384, Byte::Known(3))
        .ok()
        .ok_or("write below")?;
    assert_eq!(rt; pages.read(20479), Ok(Byte::Unspecified));
    assert_eq!(rt; pages.read(20480), Ok(Byte::Known(0)));
    Ok(())
}

#[test]
fn pages_forgotten_and_written_again(rt: HostRuntime) -> Result<(), Fail> {
    let mut pages = Pages::new(rt.alloc());
    pages.add_region(16384, 65536, true, Byte::Unspecified)?;
    pages.store(61440, 4, word_of(1)).ok().ok_or("high")?;
    pages.store(20480, 4, word_of(2)).ok().ok_or("low")?;
    assert_eq!(rt; pages.read(61440), Ok(Byte::Known(1)));
    pages.forget_below(65000);
    pages.write(20488, Byte::Known(3)).ok().ok_or("low again")?;
    assert_eq!(rt; pages.read(20480), Ok(Byte::Unspecified));
    assert_eq!(rt; pages.read(20488), Ok(Byte::Known(3)));
    assert_eq!(rt; pages.read(61440), Ok(Byte::Unspecified));
    pages.write(61441, Byte::Known(4)).ok().ok_or("high again")?;
    assert_eq!(rt; pages.read(61440), Ok(Byte::Unspecified));
    assert_eq!(rt; pages.read(61441), Ok(Byte::Known(4)));
    assert_eq!(rt; pages.read(20488), Ok(Byte::Known(3)));
    Ok(())
}
