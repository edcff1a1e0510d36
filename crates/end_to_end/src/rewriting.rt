// Files that are rewritten, or aren't taken yet, by their code. What is expected is written by hand, from Intel SDM volume 2
// ("MOV", "JMP", "INT n", "HLT") and this project's own rules.
use crate::files::{NEW_EXIT_SEVEN, moves_then};
use crate::hosts::{NEW_MAP, REWRITE, end_of, expect_answer, expect_code, line_of};
use std::test::Fail;
use sw_host::MemoryHost;
use sw_top::{End, status};
use worked_programs::{ADD_TWO, EXIT_SEVEN, file_of};

#[test]
fn rewrites_a_file(rt: HostRuntime) -> Result<(), Fail> {
    let alloc = rt.alloc();
    let file = file_of(alloc, EXIT_SEVEN)?;
    let mut host = MemoryHost::new(alloc);
    host.add_file("in", file.as_slice())?;
    let end = end_of(alloc, REWRITE, &mut host)?;
    assert_eq!(rt; end, End::Done);
    assert_eq!(rt; status(&end), 0);
    assert_eq!(rt; line_of(&host), b"".as_slice());
    assert_eq!(rt; host.file("map"), Some(NEW_MAP));
    let out = host.file("out").ok_or("no OUT")?;
    assert_eq!(rt; out.len(), 12288);
    assert_eq!(rt; &out[24..28], b"\0\0\0\x60".as_slice(), "the entry");
    assert_eq!(rt; &out[4096..8192], &file[4096..8192]);
    assert_eq!(rt; &out[8192..8206], NEW_EXIT_SEVEN);
    assert_eq!(rt; &out[8206..], [0; 4082].as_slice());
    Ok(())
}

// Texts, and the new code where they are rewritten.
#[test]
fn takes_straight_code(rt: HostRuntime) -> Result<(), Fail> {
    let alloc = rt.alloc();
    for (name, text, code) in [
        ("exit with 7", EXIT_SEVEN, Some(NEW_EXIT_SEVEN)),
        ("add two numbers", ADD_TWO, None),
        (
            "another call",
            b"\xB8\x14\0\0\0\xCD\x80\xF4",
            Some(b"\xB8\x14\0\0\0\xCD\x80\x0F\x0B"),
        ),
        ("move 60000000", b"\xBE\0\0\0\x60\xF4", None),
        (
            "move 5FFFFFFF",
            b"\xBE\xFF\xFF\xFF\x5F\xF4",
            Some(b"\xBE\xFF\xFF\xFF\x5F\x0F\x0B"),
        ),
        ("move 7BFFFFFF", b"\xBF\xFF\xFF\xFF\x7B\xF4", None),
        (
            "move 7C000000",
            b"\xBF\0\0\0\x7C\xF4",
            Some(b"\xBF\0\0\0\x7C\x0F\x0B"),
        ),
        ("another byte", b"\x90", None),
        ("another byte after a move", b"\xB9\x05\0\0\0\x90", None),
        (
            "another byte that isn't met",
            b"\xF4\x90",
            Some(b"\x0F\x0B"),
        ),
        (
            "another interrupt",
            b"\xBC\x05\0\0\0\xCD\x03",
            Some(b"\xBC\x05\0\0\0\x0F\x0B"),
        ),
        // the zeros after the text complete the move, and the next place begins with 0
        ("the text ends in a move", b"\xB8\x01", None),
        ("the text ends after a call", b"\xCD\x80", None),
    ] {
        expect_answer(&rt, alloc, name, text, code)?;
    }
    Ok(())
}

// Texts with jumps, and the new code where they are rewritten.
#[test]
fn takes_jumps(rt: HostRuntime) -> Result<(), Fail> {
    let alloc = rt.alloc();
    for (name, text, code) in [
        (
            "to itself",
            b"\xEB\xFE".as_slice(),
            Some(b"\xE9\xFB\xFF\xFF\xFF".as_slice()),
        ),
        (
            "to the next place",
            b"\xE9\0\0\0\0\xF4",
            Some(b"\xE9\0\0\0\0\x0F\x0B"),
        ),
        (
            "a loop",
            b"\xB8\x01\0\0\0\xCD\x80\xEB\xF7",
            Some(b"\xB8\x01\0\0\0\xCD\x80\xE9\xF4\xFF\xFF\xFF"),
        ),
        // the move is reached after the place to which it leads
        (
            "on to a place that is placed",
            b"\xEB\x05\xB8\x01\0\0\0\xEB\xF9",
            Some(b"\xE9\0\0\0\0\xE9\0\0\0\0\xB8\x01\0\0\0\xE9\xF1\xFF\xFF\xFF"),
        ),
        // place 1 is in the constant of the move
        (
            "code over other code",
            b"\xB8\xCD\x80\xF4\xF4\xEB\xFA",
            Some(b"\xB8\xCD\x80\xF4\xF4\xE9\0\0\0\0\xCD\x80\x0F\x0B"),
        ),
        ("below the page", b"\xEB\x80", Some(b"\xE9\0\0\0\0\x0F\x0B")),
        (
            "behind the page",
            b"\xE9\xFB\x0F\0\0",
            Some(b"\xE9\0\0\0\0\x0F\x0B"),
        ),
        (
            "over another byte",
            b"\xEB\x01\x90\xF4",
            Some(b"\xE9\0\0\0\0\x0F\x0B"),
        ),
        ("to another byte", b"\xEB\0\x90", None),
        ("to a move of 60000000", b"\xEB\0\xBE\0\0\0\x60\xF4", None),
    ] {
        expect_answer(&rt, alloc, name, text, code)?;
    }
    Ok(())
}

// What stands in the last byte of the page, a jump to it, and the new code where it is rewritten.
#[test]
fn jumps_to_the_last_byte(rt: HostRuntime) -> Result<(), Fail> {
    let alloc = rt.alloc();
    for (name, last, code) in [
        ("hlt", 0xF4, Some(b"\xE9\0\0\0\0\x0F\x0B".as_slice())),
        ("a call that is cut", 0xCD, Some(b"\xE9\0\0\0\0\x0F\x0B")),
        ("a jump that is cut", 0xEB, Some(b"\xE9\0\0\0\0\x0F\x0B")),
        ("another byte", 0x90, None),
    ] {
        let mut text = Vec::new(alloc);
        text.extend_from_slice(b"\xE9\xFA\x0F\0\0")?;
        text.resize(4095, 0)?;
        text.push(last)?;
        expect_answer(&rt, alloc, name, text.as_slice(), code)?;
    }
    Ok(())
}

// A page of moves, and what stands in its last bytes and in the place of these in the new code.
#[test]
fn takes_a_whole_page(rt: HostRuntime) -> Result<(), Fail> {
    let alloc = rt.alloc();
    for (name, count, last, new) in [
        ("hlt", 819, b"\xF4".as_slice(), b"\x0F\x0B".as_slice()),
        ("a move that is cut", 819, b"\xB8", b"\x0F\x0B"),
        ("a call that is cut", 819, b"\xCD", b"\x0F\x0B"),
        (
            "calls",
            818,
            b"\xCD\x80\xCD\x80\xCD\x80",
            b"\xCD\x80\xCD\x80\xCD\x80\x0F\x0B",
        ),
        // the new code is a page, no byte more
        (
            "two calls",
            818,
            b"\xCD\x80\xCD\x80\xF4\0",
            b"\xCD\x80\xCD\x80\x0F\x0B",
        ),
    ] {
        let text = moves_then(alloc, count, last)?;
        assert_eq!(rt; text.len(), 4096, "{name}");
        let code = moves_then(alloc, count, new)?;
        assert!(rt; code.len() <= 8192, "{name}");
        let file = file_of(alloc, text.as_slice())?;
        expect_code(&rt, alloc, name, file.as_slice(), code.as_slice())?;
    }
    Ok(())
}
