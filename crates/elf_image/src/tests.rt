ghost use Rattle.std.specs.Prelude.{◌≡◌, ◌+◌, ◌≤◌, length, IfOk};

use crate::{ImageError, Refusal, Room, read_image};
use image::{Image, Segment, byte_at, can_run};
use std::alloc::{AllocError, Global};
use std::process::Abort;
use std::test::Fail;

// A file as a linker lays it out, as words at places: its header; four segments, each as far into its page as into the
// file: the headers, code, data that can only be read, and data that is longer in memory; mov ebx, 7; mov eax, 1;
// int 0x80; hlt at 0xC0; and four bytes after the last segment.
static WORDS: [(usize, u32); 45] = [
    (0, 0x464C457F),
    (4, 0x00010101),
    (16, 0x00030002),
    (20, 1),
    (24, 0x080490C0),
    (28, 52),
    (40, 0x00200034),
    (44, 4),
    (52, 1),
    (60, 0x08048000),
    (64, 0x08048000),
    (68, 180),
    (72, 180),
    (76, 4),
    (80, 4096),
    (84, 1),
    (88, 0xC0),
    (92, 0x080490C0),
    (96, 0x080490C0),
    (100, 32),
    (104, 32),
    (108, 5),
    (112, 4096),
    (116, 1),
    (120, 0x100),
    (124, 0x0804A100),
    (128, 0x0804A100),
    (132, 16),
    (136, 16),
    (140, 4),
    (144, 4096),
    (148, 1),
    (152, 0x120),
    (156, 0x0804B120),
    (160, 0x0804B120),
    (164, 16),
    (168, 0x2000),
    (172, 6),
    (176, 4096),
    (192, 0x000007BB),
    (196, 0x0001B800),
    (200, 0x80CD0000),
    (204, 0xF4),
    (288, 0x34333231),
    (304, 0x64636261),
];

// A row changes two words of that file. Where one alone is to change, it stands twice.
type Row = (Refusal, [(usize, u32); 2]);

// One cause alone.
const ALONE: [Row; 24] = [
    (Refusal::Magic, [(0, 0x464C457E), (0, 0x464C457E)]),
    (Refusal::Class, [(4, 0x00010102), (4, 0x00010102)]),
    (Refusal::Order, [(4, 0x00010201), (4, 0x00010201)]),
    (Refusal::Version, [(4, 0x00020101), (4, 0x00020101)]),
    (Refusal::Kind, [(16, 0x00030003), (16, 0x00030003)]),
    (Refusal::Machine, [(16, 0x003E0002), (16, 0x003E0002)]),
    (Refusal::HeaderSize, [(40, 0x00280034), (40, 0x00280034)]),
    (Refusal::HeaderTable, [(44, 9), (44, 9)]),
    (Refusal::Dynamic, [(116, 2), (116, 2)]),
    (Refusal::Dynamic, [(116, 3), (116, 3)]),
    (Refusal::SegmentFile, [(100, 0x80), (104, 0x80)]),
    (Refusal::SegmentSize, [(104, 31), (104, 31)]),
    (Refusal::SegmentAlign, [(120, 0x101), (120, 0x101)]),
    (Refusal::Permission, [(172, 7), (172, 7)]),
    (Refusal::Permission, [(140, 0), (140, 0)]),
    (Refusal::Range, [(60, 0), (60, 0)]),
    (Refusal::Range, [(156, 0x4FFFF120), (156, 0x4FFFF120)]),
    (Refusal::SharedPage, [(124, 0x08049100), (124, 0x08049100)]),
    // the first segment lies on the last page of the last one
    (Refusal::SharedPage, [(60, 0x0804D000), (60, 0x0804D000)]),
    (Refusal::Entry, [(24, 0x0804A100), (24, 0x0804A100)]),
    (Refusal::Entry, [(24, 0x0804A000), (24, 0x0804A000)]),
    (Refusal::CodeSpan, [(124, 0x0904A100), (140, 5)]),
    (Refusal::ImageSize, [(168, 0x05000000), (168, 0x05000000)]),
    (Refusal::ImageSize, [(168, 0x03FFCEE1), (168, 0x03FFCEE1)]),
];

// A cause and a later one, or a sum that does not fit a word.
const BOTH: [Row; 20] = [
    (Refusal::Magic, [(0, 0x464C457E), (4, 0x00010102)]),
    (Refusal::Class, [(4, 0x00010202), (4, 0x00010202)]),
    (Refusal::Order, [(4, 0x00020201), (4, 0x00020201)]),
    (Refusal::Version, [(4, 0x00020101), (16, 0x00030003)]),
    (Refusal::Kind, [(16, 0x003E0003), (16, 0x003E0003)]),
    (Refusal::Machine, [(16, 0x003E0002), (40, 0x00280034)]),
    (Refusal::HeaderSize, [(40, 0x00280034), (44, 9)]),
    (Refusal::HeaderTable, [(44, 9), (116, 2)]),
    (Refusal::Dynamic, [(116, 2), (100, 0x80)]),
    (Refusal::SegmentFile, [(100, 0x80), (104, 31)]),
    (Refusal::SegmentSize, [(104, 31), (120, 0x101)]),
    (Refusal::SegmentAlign, [(120, 0x101), (172, 7)]),
    (Refusal::Permission, [(172, 7), (60, 0)]),
    (Refusal::Range, [(60, 0), (124, 0x08049100)]),
    (Refusal::SharedPage, [(124, 0x08049100), (24, 0x0804A100)]),
    (Refusal::Entry, [(92, 0x0A0490C0), (76, 5)]),
    (Refusal::CodeSpan, [(168, 0x05000000), (172, 5)]),
    (Refusal::HeaderTable, [(28, 0xFFFFFFF0), (28, 0xFFFFFFF0)]),
    (Refusal::SegmentFile, [(88, 0xFFFFF0C0), (100, 0x1000)]),
    (Refusal::Range, [(168, 0xFFFFFFFF), (168, 0xFFFFFFFF)]),
];

// Changes that are accepted: all pages together of the greatest size, and a segment that ends where the room does.
static ACCEPTED: [[(usize, u32); 2]; 3] = [
    [(0, 0x464C457F), (168, 0x03FFCEE0)],
    [(156, 0x4FFFD120), (168, 0x00002EE0)],
    [(24, 0x08049FFF), (68, 0)],
];

fn put(file: &mut [u8], words: &[(usize, u32)]) {
    for (at, word) in words {
        if *at <= file.len() && 4 <= file.len() - *at {
            file[*at..*at + 4].copy_from_slice(&word.to_le_bytes());
        }
    }
}

fn file_with(alloc: Global, changes: &[(usize, u32)]) -> Result<Vec<u8>, AllocError>
    ensures { IfOk result (λ v. length v.items ≡ 308) }
{
    let mut file = vec![in alloc; 0u8; 308]?;
    put(file.as_mut_slice(), &WORDS);
    put(file.as_mut_slice(), changes);
    Ok(file)
}

fn refusal_of(alloc: Global, bytes: &[u8]) -> Option<Refusal> {
    match read_image(alloc, bytes, Room::Source) {
        Err(ImageError::Refused(refusal)) => Some(refusal),
        _ => None,
    }
}

#[test]
fn refuses_for_one_cause(rt: HostRuntime) -> Result<(), Fail> {
    let rows = ALONE;
    for (refusal, changes) in &rows {
        let file = file_with(rt.alloc(), changes)?;
        assert_eq!(rt; refusal_of(rt.alloc(), file.as_slice()), Some(*refusal));
    }
    Ok(())
}

#[test]
fn refuses_for_the_first_cause(rt: HostRuntime) -> Result<(), Fail> {
    let rows = BOTH;
    for (refusal, changes) in &rows {
        let file = file_with(rt.alloc(), changes)?;
        assert_eq!(rt; refusal_of(rt.alloc(), file.as_slice()), Some(*refusal));
    }
    Ok(())
}

#[test]
fn accepts_up_to_the_limits(rt: HostRuntime) -> Result<(), Fail> {
    for changes in &ACCEPTED {
        let file = file_with(rt.alloc(), changes)?;
        let _ = read_image(rt.alloc(), file.as_slice(), Room::Source)?;
    }
    Ok(())
}

// What a file is refused for that is cut after n bytes.
fn refusal_of_cut(n: usize) -> Option<Refusal> {
    if n < 52 {
        Some(Refusal::Short)
    } else if n < 180 {
        Some(Refusal::HeaderTable)
    } else if n < 304 {
        Some(Refusal::SegmentFile)
    } else {
        None
    }
}

#[test]
fn refuses_what_is_cut(rt: HostRuntime) -> Result<(), Fail> {
    let file = file_with(rt.alloc(), &[])?;
    for n in 0..file.len() {
        assert_eq!(rt; refusal_of(rt.alloc(), &file[..n]), refusal_of_cut(n));
    }
    Ok(())
}

#[test]
fn takes_more_in_the_wide_room(rt: HostRuntime) -> Result<(), Fail> {
    let file = file_with(rt.alloc(), &[(156, 0x7BFF0120), (168, 0x00002000)])?;
    assert_eq!(rt;
        refusal_of(rt.alloc(), file.as_slice()),
        Some(Refusal::Range)
    );
    let image = read_image(rt.alloc(), file.as_slice(), Room::Any)?;
    assert_eq!(rt; image.segments.as_slice().len(), 4);
    Ok(())
}

// The file's only page, as it is mapped.
fn page_of(alloc: Global, file: &[u8]) -> Result<Vec<u8>, AllocError>
    requires { length file.now ≡ 308 }
    ensures { IfOk result (λ v. length v.items ≡ 4096) }
{
    let mut page = vec![in alloc; 0u8; 4096]?;
    page[..308].copy_from_slice(file);
    Ok(page)
}

fn shape(segment: &Segment) -> (u32, u32, u32) {
    (segment.start, segment.size, segment.perm.0)
}

fn shapes(image: &Image) -> Option<[(u32, u32, u32); 4]> {
    match image.segments.as_slice() {
        [a, b, c, d] => Some([shape(a), shape(b), shape(c), shape(d)]),
        _ => None,
    }
}

#[test]
fn reads_a_linked_file(rt: HostRuntime) -> Result<(), Fail> {
    let file = file_with(rt.alloc(), &[])?;
    let image = read_image(rt.alloc(), file.as_slice(), Room::Source)?;
    assert_eq!(rt; image.entry, 0x080490C0);
    assert_eq!(rt;
        shapes(&image),
        Some([
            (0x08048000, 4096, 4),
            (0x08049000, 4096, 5),
            (0x0804A000, 4096, 4),
            (0x0804B000, 12288, 6)
        ])
    );
    Ok(())
}

#[test]
fn maps_whole_pages_of_the_file(rt: HostRuntime) -> Result<(), Fail> {
    let file = file_with(rt.alloc(), &[])?;
    let mut page = page_of(rt.alloc(), file.as_slice())?;
    let image = read_image(rt.alloc(), file.as_slice(), Room::Source)?;
    assert_eq!(rt; image.segments.as_slice().len(), 4);
    if let [headers, code, constants, variables] = image.segments.as_slice() {
        assert_eq!(rt; headers.bytes.as_slice(), page.as_slice());
        assert_eq!(rt; code.bytes.as_slice(), page.as_slice());
        assert_eq!(rt; constants.bytes.as_slice(), page.as_slice());
        // what is longer in memory begins with zeros where its bytes of the file end
        page[304..308].copy_from_slice(&[0; 4]);
        assert_eq!(rt; variables.bytes.as_slice(), page.as_slice());
    }
    Ok(())
}

// The headers of a file with four segments, each at the beginning of a page, and a note on the stack (PT_GNU_STACK).
static NOTED: [(usize, u32); 41] = [
    (0, 0x464C457F),
    (4, 0x00010101),
    (16, 0x00030002),
    (20, 1),
    (24, 0x08049000),
    (28, 52),
    (40, 0x00200034),
    (44, 5),
    (52, 1),
    (60, 0x08048000),
    (64, 0x08048000),
    (68, 0xD4),
    (72, 0xD4),
    (76, 4),
    (80, 4096),
    (84, 1),
    (88, 0x1000),
    (92, 0x08049000),
    (96, 0x08049000),
    (100, 62),
    (104, 62),
    (108, 5),
    (112, 4096),
    (116, 1),
    (120, 0x2000),
    (124, 0x0804A000),
    (128, 0x0804A000),
    (132, 4),
    (136, 4),
    (140, 4),
    (144, 4096),
    (148, 1),
    (152, 0x3000),
    (156, 0x0804B000),
    (160, 0x0804B000),
    (164, 4),
    (168, 16),
    (172, 6),
    (176, 4096),
    (180, 0x6474E551),
    (204, 6),
];

// A program that writes its argument byte by byte, as it is assembled.
static TEXT: [u8; 62] = [
    0xF3, 0x0F, 0x1E, 0xFB, 0x8B, 0x74, 0x24, 0x04, 0x31, 0xD2, 0x80, 0x3C, 0x16, 0x00, 0x74, 0x03,
    0x42, 0xEB, 0xF7, 0x85, 0xD2, 0x74, 0x0D, 0x89, 0xF1, 0xE8, 0x12, 0x00, 0x00, 0x00, 0x01, 0xC6,
    0x29, 0xC2, 0xEB, 0xEF, 0x31, 0xDB, 0xB8, 0x01, 0x00, 0x00, 0x00, 0xCD, 0x80, 0xF4, 0x66, 0x90,
    0xBB, 0x01, 0x00, 0x00, 0x00, 0xB8, 0x04, 0x00, 0x00, 0x00, 0xCD, 0x80, 0xF3, 0xC3,
];

fn noted_file(alloc: Global) -> Result<Vec<u8>, AllocError> {
    let mut file = vec![in alloc; 0u8; 0x3004]?;
    put(file.as_mut_slice(), &NOTED);
    if 0x103E <= file.len() {
        file[0x1000..0x103E].copy_from_slice(&TEXT);
    }
    Ok(file)
}

#[test]
fn reads_a_file_with_a_note(rt: HostRuntime) -> Result<(), Fail> {
    let file = noted_file(rt.alloc())?;
    let image = read_image(rt.alloc(), file.as_slice(), Room::Source)?;
    assert_eq!(rt; image.entry, 0x08049000);
    assert_eq!(rt;
        shapes(&image),
        Some([
            (0x08048000, 4096, 4),
            (0x08049000, 4096, 5),
            (0x0804A000, 4096, 4),
            (0x0804B000, 4096, 6)
        ])
    );
    for (at, byte, runs) in [
        (0x08047FFF, None, false),
        (0x08048000, Some(0x7F), false),
        (0x08049000, Some(0xF3), true),
        (0x0804903D, Some(0xC3), true),
        (0x08049FFF, Some(0), true),
        (0x0804A000, Some(0), false),
        (0x0804BFFF, Some(0), false),
        (0x0804C000, None, false),
    ] {
        assert_eq!(rt; byte_at(&image, at), byte);
        assert_eq!(rt; can_run(&image, at), runs);
    }
    Ok(())
}

#[test]
fn names_what_is_wrong(rt: HostRuntime) -> Result<(), Fail> {
    let error = ImageError::Refused(Refusal::SegmentFile);
    assert_eq!(rt;
        format!(in rt.alloc(); "{error}")?.as_str(),
        "refused SegmentFile"
    );
    Ok(())
}
