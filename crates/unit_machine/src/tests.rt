// What no clause says: that a run succeeds with ample memory, and what it comes to.
use crate::{UnitEnd, counting_unit, run_unit};
use mem_pages::{Pages, RunEnd};
use std::alloc::{AllocError, Global};
use std::test::Fail;
use sw_host::MemoryHost;
use x86_values::Byte;

const ESP0: u32 = 0x8000_1000;

// A stack of a page on either side of esp, with two bytes at it.
fn stack(alloc: Global) -> Result<Pages, AllocError> {
    let mut pages = Pages::new(alloc);
    pages.add_region(0x8000_0000, 0x8000_2000, true, Byte::Unspecified)?;
    match pages.fill(ESP0, &[0x68, 0x69]) {
        Ok(()) => Ok(pages),
        Err(_) => Err(AllocError),
    }
}

fn end_of(
    alloc: Global,
    host: &mut MemoryHost,
    entry: u32,
    count: u32,
    budget: u64,
) -> Result<UnitEnd, AllocError> {
    let unit = counting_unit(alloc, count)?;
    let mut pages = stack(alloc)?;
    run_unit(alloc, &unit, &mut pages, entry, ESP0, host, budget)
}

#[test]
fn runs_to_the_end(rt: HostRuntime) -> Result<(), Fail> {
    let mut host = MemoryHost::new(rt.alloc());
    let spent = UnitEnd::Run(RunEnd::Spent);
    let exited = UnitEnd::Run(RunEnd::Exited(7));
    // Two steps, two for each of two turns, and eight of the last block.
    assert_eq!(rt; end_of(rt.alloc(), &mut host, 0x1000, 2, 13)?, spent);
    assert_eq!(rt; end_of(rt.alloc(), &mut host, 0x1000, 2, 14)?, exited);
    assert_eq!(rt; end_of(rt.alloc(), &mut host, 0x1000, 2, 100)?, exited);
    assert_eq!(rt; end_of(rt.alloc(), &mut host, 0x1000, 0, 100)?, spent);
    assert_eq!(rt;
        end_of(rt.alloc(), &mut host, 0x1234, 2, 0)?,
        UnitEnd::Stopped(0x1234)
    );
    assert_eq!(rt;
        end_of(rt.alloc(), &mut host, 0, 2, 9)?,
        UnitEnd::Stopped(0)
    );
    Ok(())
}

#[test]
fn writes_what_stands_at_esp(rt: HostRuntime) -> Result<(), Fail> {
    let mut host = MemoryHost::new(rt.alloc());
    end_of(rt.alloc(), &mut host, 0x1010, 1, 0)?;
    end_of(rt.alloc(), &mut host, 0x1000, 1, 100)?;
    assert_eq!(rt; host.moved().as_slice().len(), 1);
    for moved in host.moved().as_slice() {
        assert_eq!(rt; moved.fd, 1);
        assert_eq!(rt; moved.bytes.as_slice(), [0x68, 0x69].as_slice());
    }
    Ok(())
}

#[test]
fn counts_millions(rt: HostRuntime) -> Result<(), Fail> {
    let mut host = MemoryHost::new(rt.alloc());
    let end = end_of(rt.alloc(), &mut host, 0x1000, 2_000_000, 10_000_000)?;
    assert_eq!(rt; end, UnitEnd::Run(RunEnd::Exited(7)));
    Ok(())
}
