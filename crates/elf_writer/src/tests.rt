// What no clause says: that files are written, and the headers of a file that is laid out by hand.
ghost use Rattle.std.specs.Prelude.{IfOk};
ghost use Rattle.elf_writer.specs.Wanted.{CanBeWritten};

use crate::write_image;
use byte_lists::ByteList;
use elf_image::{Room, read_image};
use image::{Perm, Segment, SegmentList};
use std::alloc::{AllocError, Global};
use std::test::Fail;

// The headers of an image with one page of code and one page of zeros.
const HEADERS: [u8; 148] = [
    0x7F, 0x45, 0x4C, 0x46, 1, 1, 1, 0, 0, 0, 0, 0, 0, 0, 0, 0, 2, 0, 3, 0, 1, 0, 0, 0, 0x00, 0x90,
    0x04, 0x08, 52, 0, 0, 0, 0, 0, 0, 0, 0, 0, 0, 0, 52, 0, 32, 0, 3, 0, 0, 0, 0, 0, 0, 0, // file
    1, 0, 0, 0, 0, 0x10, 0, 0, 0, 0x90, 4, 8, 0, 0x90, 4, 8, 0, 0x10, 0, 0, 0, 0x10, 0, 0, 5, 0, 0,
    0, 0, 0x10, 0, 0, // code
    1, 0, 0, 0, 0, 0x20, 0, 0, 0, 0xA0, 4, 8, 0, 0xA0, 4, 8, 0, 0, 0, 0, 0, 0x10, 0, 0, 6, 0, 0, 0,
    0, 0x10, 0, 0, // zeros
    0x51, 0xE5, 0x74, 0x64, 0, 0, 0, 0, 0, 0, 0, 0, 0, 0, 0, 0, 0, 0, 0, 0, 0, 0, 0, 0, 6, 0, 0, 0,
    0, 0, 0, 0, // stack
];

// The headers of an image whose data come first: one page of two, and then a page of code. It begins at its last byte.
const DATA_FIRST: [u8; 148] = [
    0x7F, 0x45, 0x4C, 0x46, 1, 1, 1, 0, 0, 0, 0, 0, 0, 0, 0, 0, 2, 0, 3, 0, 1, 0, 0, 0, 0xFF, 0x9F,
    0x04, 0x08, 52, 0, 0, 0, 0, 0, 0, 0, 0, 0, 0, 0, 52, 0, 32, 0, 3, 0, 0, 0, 0, 0, 0, 0, // file
    1, 0, 0, 0, 0, 0x10, 0, 0, 0, 0xA0, 4, 8, 0, 0xA0, 4, 8, 0, 0x10, 0, 0, 0, 0x20, 0, 0, 6, 0, 0,
    0, 0, 0x10, 0, 0, // data
    1, 0, 0, 0, 0, 0x20, 0, 0, 0, 0x90, 4, 8, 0, 0x90, 4, 8, 0, 0x10, 0, 0, 0, 0x10, 0, 0, 5, 0, 0,
    0, 0, 0x10, 0, 0, // code
    0x51, 0xE5, 0x74, 0x64, 0, 0, 0, 0, 0, 0, 0, 0, 0, 0, 0, 0, 0, 0, 0, 0, 0, 0, 0, 0, 6, 0, 0, 0,
    0, 0, 0, 0, // stack
];

// Where zeros and data stand, right behind the page of code.
const DATA_START: u32 = 0x0804_A000;

fn plain_segments(alloc: Global) -> Result<SegmentList, AllocError>
    ensures { IfOk result (λ segments. CanBeWritten segments 0x08049000) }
{
    let code = Segment {
        start: 0x08049000,
        size: 4096,
        perm: Perm(5),
        bytes: ByteList::new(vec![in alloc; 0xF4u8; 4096]?),
    };
    let zeros = Segment {
        start: DATA_START,
        size: 4096,
        perm: Perm(6),
        bytes: ByteList::new(Vec::new(alloc)),
    };
    Ok(SegmentList::new(Vec::from_array(alloc, [code, zeros])?))
}

fn data_and_code(alloc: Global) -> Result<SegmentList, AllocError>
    ensures { IfOk result (λ segments. CanBeWritten segments 0x08049FFF) }
{
    let data = Segment {
        start: DATA_START,
        size: 8192,
        perm: Perm(6),
        bytes: ByteList::new(vec![in alloc; 7u8; 4096]?),
    };
    let code = Segment {
        start: 0x08049000,
        size: 4096,
        perm: Perm(5),
        bytes: ByteList::new(vec![in alloc; 0xF4u8; 4096]?),
    };
    Ok(SegmentList::new(Vec::from_array(alloc, [data, code])?))
}

#[test]
fn writes_a_plain_file(rt: HostRuntime) -> Result<(), Fail> {
    let segments = plain_segments(rt.alloc())?;
    let file = write_image(rt.alloc(), &segments, 0x08049000)?;
    assert_eq!(rt; file.len(), 8192);
    assert!(rt; file.starts_with(&HEADERS));
    assert!(rt; file.ends_with(&[0xF4; 4096]));
    let image = read_image(rt.alloc(), &file, Room::Any)?;
    assert_eq!(rt; image.entry, 0x08049000);
    assert_eq!(rt; image.segments.as_slice().len(), 2);
    Ok(())
}

#[test]
fn keeps_the_order_of_segments(rt: HostRuntime) -> Result<(), Fail> {
    let segments = data_and_code(rt.alloc())?;
    let file = write_image(rt.alloc(), &segments, 0x08049FFF)?;
    assert_eq!(rt; file.len(), 12288);
    assert!(rt; file.starts_with(&DATA_FIRST));
    for (i, byte) in [
        (148, 0),
        (4095, 0),
        (4096, 7),
        (8191, 7),
        (8192, 0xF4),
        (12287, 0xF4),
    ] {
        assert_eq!(rt; file.get(i).copied(), Some(byte), "{i}");
    }
    Ok(())
}
