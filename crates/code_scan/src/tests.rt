// What no clause says: that the allocating calls succeed with ample memory, and what they give of a page of code and its table.
ghost use Rattle.std.specs.Prelude.{◌≡◌, ◌≤◌, length, IfOk};

use crate::{IndexedImage, run_of, table_at};
use byte_lists::ByteList;
use image::{Image, Perm, Segment, SegmentList};
use std::alloc::{AllocError, Global};
use std::test::Fail;

// CMP ecx, 2; JA to the RET; JMP [ecx*4 + 0x2000]; RET; JMP [eax*4 + 0x3000]
const CODE: [u8; 20] = [
    0x83, 0xF9, 0x02, 0x77, 0x07, 0xFF, 0x24, 0x8D, 0x00, 0x20, 0x00, 0x00, 0xC3, 0xFF, 0x24, 0x85,
    0x00, 0x30, 0x00, 0x00,
];

// The words 0x100C, 0x1000 and 0x5000.
const WORDS: [u8; 12] = [
    0x0C, 0x10, 0x00, 0x00, 0x00, 0x10, 0x00, 0x00, 0x00, 0x50, 0x00, 0x00,
];

// A page that begins with these bytes.
fn page_of(alloc: Global, front: &[u8]) -> Result<Vec<u8>, AllocError>
    requires { length front.now ≤ 4096 }
    ensures { IfOk result (λ page. length page.items ≡ 4096) }
{
    let mut page = vec![in alloc; 0; 4096]?;
    page[..front.len()].copy_from_slice(front);
    Ok(page)
}

// A page of code, one that can only be read, and one that can be written.
fn worked_image(alloc: Global) -> Result<Image, AllocError> {
    let code = Segment {
        start: 0x1000,
        size: 0x1000,
        perm: Perm(5),
        bytes: ByteList::new(page_of(alloc, &CODE)?),
    };
    let table = Segment {
        start: 0x2000,
        size: 0x1000,
        perm: Perm(4),
        bytes: ByteList::new(page_of(alloc, &WORDS)?),
    };
    let written = Segment {
        start: 0x3000,
        size: 0x1000,
        perm: Perm(6),
        bytes: ByteList::new(page_of(alloc, &WORDS)?),
    };
    Ok(Image {
        segments: SegmentList::new(Vec::from_array(alloc, [table, written, code])?),
        entry: 0x1000,
    })
}

#[test]
fn follows_runs_and_tables(rt: HostRuntime) -> Result<(), Fail> {
    let image = worked_image(rt.alloc())?;
    let run = run_of(rt.alloc(), &image, 0x1000)?;
    assert_eq!(rt; run.as_slice().len(), 3);
    let table = table_at(rt.alloc(), &image, &run)?.expect(&rt, "a table jump");
    assert_eq!(rt; (table.jump, table.start), (0x1005, 0x2000));
    assert_eq!(rt;
        table.targets.as_slice(),
        [0x100C, 0x1000, 0x5000].as_slice()
    );
    Ok(())
}

#[test]
fn reads_an_indexed_image(rt: HostRuntime) -> Result<(), Fail> {
    let image = worked_image(rt.alloc())?;
    let indexed = IndexedImage::new(rt.alloc(), &image)?;
    let run = indexed.run_of(rt.alloc(), 0x100D)?;
    let table = indexed
        .table_at(rt.alloc(), &run)?
        .expect(&rt, "a table jump");
    assert_eq!(rt; table.targets.as_slice().len(), 0);
    assert_eq!(rt; indexed.place_at(0x2000), None);
    assert_eq!(rt; indexed.word_at(0x1000), Some(0x7702F983));
    assert_eq!(rt; indexed.word_at(0x2FFE), Some(0x100C0000));
    assert_eq!(rt; indexed.word_at(0x3FFD), None);
    Ok(())
}
