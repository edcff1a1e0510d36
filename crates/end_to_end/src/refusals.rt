// Files that are refused or too long. What is expected is written by hand, from the gABI ("ELF Header", "Program Header") and
// this project's own rules.
use crate::files::NEW_EXIT_SEVEN;
use crate::hosts::{REWRITE, TOO_LONG, end_of, expect_code, expect_refusal, line_of};
use elf_image::Refusal;
use std::test::Fail;
use sw_host::MemoryHost;
use sw_top::{End, status};
use worked_programs::{EXIT_SEVEN, file_of};

// Sizes and first bytes of files that aren't plain: the first cause of a refusal is told.
#[test]
fn refuses_other_files(rt: HostRuntime) -> Result<(), Fail> {
    let alloc = rt.alloc();
    for (name, first, size, refusal) in [
        ("empty", 0x7F, 0, Refusal::Short),
        ("51 bytes", 0x7F, 51, Refusal::Short),
        ("51 bytes, no magic", 0, 51, Refusal::Short),
        ("52 bytes, no magic", 0, 52, Refusal::Magic),
        ("52 bytes", 0x7F, 52, Refusal::HeaderTable),
        ("115 bytes", 0x7F, 115, Refusal::HeaderTable),
        ("116 bytes", 0x7F, 116, Refusal::SegmentFile),
        ("8191 bytes", 0x7F, 8191, Refusal::SegmentFile),
        ("8192 bytes, no magic", 0, 8192, Refusal::Magic),
        ("8193 bytes", 0x7F, 8193, Refusal::NotYet),
        ("16384 bytes", 0x7F, 16384, Refusal::NotYet),
    ] {
        let mut file = file_of(alloc, EXIT_SEVEN)?;
        file[0] = first;
        file.resize(size, 0)?;
        expect_refusal(&rt, alloc, name, file.as_slice(), refusal)?;
    }
    let no_text = file_of(alloc, b"")?;
    expect_refusal(&rt, alloc, "no text", no_text.as_slice(), Refusal::Entry)?;
    let mut magic = [0; 52];
    magic[..4].copy_from_slice(b"\x7FELF");
    expect_refusal(&rt, alloc, "the magic and zeros", &magic, Refusal::Class)?;
    let zeros = [0; 52];
    expect_refusal(&rt, alloc, "52 zeros", &zeros, Refusal::Magic)
}

// One byte more than 16 MiB is too long, whatever the bytes are.
#[test]
fn measures_its_input(rt: HostRuntime) -> Result<(), Fail> {
    let alloc = rt.alloc();
    let file = vec![in alloc; 0u8; 16_777_217]?;
    let mut host = MemoryHost::new(alloc);
    host.add_file("in", file.as_slice())?;
    let end = end_of(alloc, REWRITE, &mut host)?;
    assert_eq!(rt; end, End::TooLong);
    assert_eq!(rt; status(&end), 122);
    assert_eq!(rt; line_of(&host), TOO_LONG);
    assert_eq!(rt; host.file("out"), None);
    assert_eq!(rt; host.file("map"), None);
    Ok(())
}

// Fields of the headers: the byte that is changed, and what the file is refused for then, if it isn't plain any more.
#[test]
fn reads_each_field(rt: HostRuntime) -> Result<(), Fail> {
    let alloc = rt.alloc();
    for (name, at, byte, refusal) in [
        ("class", 4, 2, Some(Refusal::Class)),
        ("order", 5, 2, Some(Refusal::Order)),
        ("version", 6, 0, Some(Refusal::Version)),
        ("system", 7, 3, None),
        ("kind", 16, 3, Some(Refusal::Kind)),
        ("kind, high byte", 17, 1, Some(Refusal::Kind)),
        ("machine", 18, 62, Some(Refusal::Machine)),
        ("entry", 24, 5, Some(Refusal::NotYet)),
        ("entry, second byte", 25, 0xA0, Some(Refusal::Entry)),
        ("header table", 28, 53, Some(Refusal::Entry)),
        ("section table", 32, 1, None),
        ("flags", 36, 1, None),
        ("size of a header", 42, 40, Some(Refusal::HeaderSize)),
        ("number of headers", 44, 1, Some(Refusal::NotYet)),
        (
            "number of headers, high byte",
            45,
            1,
            Some(Refusal::HeaderTable),
        ),
        ("code: kind", 52, 2, Some(Refusal::Dynamic)),
        ("code: offset", 57, 0, Some(Refusal::NotYet)),
        ("code: offset, low byte", 56, 1, Some(Refusal::SegmentAlign)),
        ("code: address", 61, 0x80, Some(Refusal::Entry)),
        ("code: address, high byte", 63, 0x50, Some(Refusal::Range)),
        ("code: physical address", 65, 0x80, None),
        ("code: file size", 68, 12, Some(Refusal::NotYet)),
        ("code: memory size", 72, 14, Some(Refusal::NotYet)),
        ("code: less memory", 72, 12, Some(Refusal::SegmentSize)),
        ("code: flags", 76, 7, Some(Refusal::Permission)),
        ("code: alignment", 81, 0x20, None),
        ("room: kind", 84, 0, Some(Refusal::NotYet)),
        ("room: offset", 89, 0x10, Some(Refusal::NotYet)),
        ("room: address", 93, 0xB0, Some(Refusal::NotYet)),
        (
            "room: the code's address",
            93,
            0x90,
            Some(Refusal::SharedPage),
        ),
        ("room: file size", 100, 1, Some(Refusal::SegmentFile)),
        ("room: memory size", 105, 0x20, Some(Refusal::NotYet)),
        ("room: all memory", 107, 4, Some(Refusal::ImageSize)),
        ("room: flags", 108, 7, Some(Refusal::Permission)),
        ("between headers and code", 4095, 1, None),
        ("after the code", 8191, 1, None),
    ] {
        assert!(rt; at < 8192);
        let mut file = file_of(alloc, EXIT_SEVEN)?;
        file[at] = byte;
        match refusal {
            None => expect_code(&rt, alloc, name, file.as_slice(), NEW_EXIT_SEVEN)?,
            Some(refusal) => expect_refusal(&rt, alloc, name, file.as_slice(), refusal)?,
        }
    }
    let mut longer = file_of(alloc, EXIT_SEVEN)?;
    longer[69] = 0x10;
    longer[73] = 0x10;
    expect_refusal(
        &rt,
        alloc,
        "over a page",
        longer.as_slice(),
        Refusal::SegmentFile,
    )
}
