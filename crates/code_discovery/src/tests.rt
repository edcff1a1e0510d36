// What no clause says: that the allocating calls succeed with ample memory, and what is found in small images, worked by hand.
ghost use Rattle.std.specs.Prelude.{◌≡◌, ◌<◌, length, IfOk};

use crate::leading_rows::LEADING_ROWS;
use crate::table_rows::TABLE_ROWS;
use crate::{DiscoverError, discover};
use byte_lists::ByteList;
use image::{Image, Perm, Segment, SegmentList};
use plan_types::body;
use std::alloc::{AllocError, Global};
use std::process::Abort;
use std::test::Fail;

// What is written into pages, of which the first has its code at an address, and what is found. A table is that of a jump, with its
// address and its targets.
pub(crate) struct Row {
    pub name: &'static str,
    pub at: u32,
    pub bytes: &'static [u8],
    pub end: &'static [u8],
    pub words: &'static [u8],
    pub words_end: &'static [u8],
    pub data: &'static [u8],
    pub code: &'static [u32],
    pub procs: &'static [u32],
    pub table: Option<(u32, u32, &'static [u32])>,
}

// A page that begins and ends with these bytes. Between them stand bytes that spell no instruction (HLT).
fn page_of(alloc: Global, front: &[u8], back: &[u8]) -> Result<Vec<u8>, AllocError>
    ensures { IfOk result (λ page. length page.items ≡ 4096) }
{
    let mut page = vec![in alloc; 0xF4; 4096]?;
    if front.len() > 4096 || back.len() > 4096 {
        return Ok(page);
    }
    page[..front.len()].copy_from_slice(front);
    page[4096 - back.len()..].copy_from_slice(back);
    Ok(page)
}

// A page of code at 0x1000, one that can only be read at 0x2000, and one that can be written too at 0x3000.
fn low_image(alloc: Global, row: &Row) -> Result<Image, AllocError> {
    let code = Segment {
        start: 0x1000,
        size: 0x1000,
        perm: Perm(5),
        bytes: ByteList::new(page_of(alloc, row.bytes, row.end)?),
    };
    let constant = Segment {
        start: 0x2000,
        size: 0x1000,
        perm: Perm(4),
        bytes: ByteList::new(page_of(alloc, row.words, row.words_end)?),
    };
    let data = Segment {
        start: 0x3000,
        size: 0x1000,
        perm: Perm(6),
        bytes: ByteList::new(page_of(alloc, row.data, b"")?),
    };
    Ok(Image {
        segments: SegmentList::new(Vec::from_array(alloc, [code, constant, data])?),
        entry: 0x1000,
    })
}

// A page of code at 0x08049000, and one behind it that can be written.
fn high_image(alloc: Global, row: &Row) -> Result<Image, AllocError> {
    let code = Segment {
        start: 0x0804_9000,
        size: 0x1000,
        perm: Perm(5),
        bytes: ByteList::new(page_of(alloc, row.bytes, row.end)?),
    };
    let data = Segment {
        start: 0x0804_A000,
        size: 0x1000,
        perm: Perm(6),
        bytes: ByteList::new(page_of(alloc, row.data, b"")?),
    };
    Ok(Image {
        segments: SegmentList::new(Vec::from_array(alloc, [code, data])?),
        entry: 0x0804_9000,
    })
}

fn image_of(alloc: Global, row: &Row) -> Result<Image, AllocError> {
    if row.at == 0x1000 {
        low_image(alloc, row)
    } else {
        high_image(alloc, row)
    }
}

// Nine pages of NOP, with HLT behind the first of them.
fn nops(alloc: Global, count: usize) -> Result<Image, AllocError>
    requires { count < 0x9000 }
{
    let mut bytes = vec![in alloc; 0x90; 0x9000]?;
    bytes[count] = 0xF4;
    let code = Segment {
        start: 0x0804_9000,
        size: 0x9000,
        perm: Perm(5),
        bytes: ByteList::new(bytes),
    };
    Ok(Image {
        segments: SegmentList::new(Vec::from_array(alloc, [code])?),
        entry: 0x0804_9000,
    })
}

// Compares what is found in an image with what is to be found.
fn compare(rt: &impl Abort, alloc: Global, row: &Row) -> Result<(), Fail> {
    let image = image_of(alloc, row)?;
    let found = discover(alloc, &image)?;
    let places = found.code.as_slice();
    let code: Vec<u32> = places.iter().map(|p| p.at).collect(alloc)?;
    assert_eq!(rt; code.as_slice(), row.code, "{}", row.name);
    assert_eq!(rt; found.procs.as_slice(), row.procs, "{}", row.name);
    match (found.tables.as_slice(), row.table) {
        ([], None) => {}
        ([table], Some((jump, start, targets))) => {
            assert_eq!(rt; table.jump, jump, "{}", row.name);
            assert_eq!(rt; table.start, start, "{}", row.name);
            assert_eq!(rt; table.targets.as_slice(), targets, "{}", row.name);
        }
        _ => assert!(rt; false, "{}", row.name),
    }
    Ok(())
}

#[test]
fn finds_code(rt: HostRuntime) -> Result<(), Fail> {
    for row in &LEADING_ROWS {
        compare(&rt, rt.alloc(), row)?;
    }
    for row in &TABLE_ROWS {
        compare(&rt, rt.alloc(), row)?;
    }
    Ok(())
}

#[test]
fn counts_instructions(rt: HostRuntime) -> Result<(), Fail> {
    let most = discover(rt.alloc(), &nops(rt.alloc(), 32_768)?)?;
    assert_eq!(rt; most.code.as_slice().len(), 32_768);
    match discover(rt.alloc(), &nops(rt.alloc(), 32_769)?) {
        Err(DiscoverError::TooMuchCode(count)) => assert_eq!(rt; count, 32_769),
        _ => assert!(rt; false),
    }
    Ok(())
}

#[test]
fn has_the_body_of_a_found_procedure(rt: HostRuntime) -> Result<(), Fail> {
    let image = image_of(rt.alloc(), &LEADING_ROWS[LEADING_ROWS.len() - 1])?;
    let found = discover(rt.alloc(), &image)?;
    let addresses = body(rt.alloc(), &found, 0x0804_9016)?;
    let wanted = [0x0804_9016, 0x0804_901A, 0x0804_901E];
    assert_eq!(rt; addresses.as_slice(), wanted.as_slice());
    Ok(())
}
