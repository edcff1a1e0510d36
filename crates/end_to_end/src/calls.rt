// Words, calls of the host that fail, lines and statuses. What is expected is written by hand, from this project's own rules.
use crate::files::{NEW_EXIT_SEVEN, new_file_of};
use crate::hosts::{
    Call, HOST_FAULT, Left, NEW_MAP, NOT_YET, OLD_MAP, OLD_OUT, REWRITE, USAGE, expect,
    nothing_stored,
};
use elf_image::Refusal;
use std::test::Fail;
use sw_top::{End, status};
use worked_programs::{ADD_TWO, EXIT_SEVEN, file_of};

#[test]
fn reads_its_words(rt: HostRuntime) -> Result<(), Fail> {
    let alloc = rt.alloc();
    let file = file_of(alloc, EXIT_SEVEN)?;
    let from = file.as_slice();
    let failing = [0, 0];
    for (name, words) in [
        ("none", [].as_slice()),
        ("an unknown word", &["copy"]),
        ("two words", &["rewrite", "in"]),
        ("three words", &["rewrite", "in", "out"]),
        ("five words", &["rewrite", "in", "out", "map", "in"]),
        ("OUT is MAP", &["rewrite", "in", "out", "out"]),
        ("another command", &["run-steps", "07", "in"]),
        ("another of four words", &["copy", "in", "out", "map"]),
        ("another case", &["Rewrite", "in", "out", "map"]),
        ("an empty command", &["", "in", "out", "map"]),
    ] {
        let left = nothing_stored(End::Usage, from, USAGE);
        let call = Call {
            words,
            from,
            failing,
        };
        expect(&rt, alloc, name, call, left)?;
    }
    Ok(())
}

// IN may be OUT or MAP.
#[test]
fn stores_over_its_input(rt: HostRuntime) -> Result<(), Fail> {
    let alloc = rt.alloc();
    let file = file_of(alloc, EXIT_SEVEN)?;
    let new = new_file_of(alloc, file.as_slice(), NEW_EXIT_SEVEN)?;
    let from = file.as_slice();
    let new = new.as_slice();
    let failing = [0, 0];
    let end = End::Done;
    let line = b"".as_slice();
    for (name, words, from_after, out, map) in [
        (
            "IN is OUT",
            ["rewrite", "in", "in", "map"],
            new,
            OLD_OUT,
            NEW_MAP,
        ),
        (
            "IN is MAP",
            ["rewrite", "in", "out", "in"],
            NEW_MAP,
            new,
            OLD_MAP,
        ),
    ] {
        let words = words.as_slice();
        let left = Left {
            end,
            from: from_after,
            out,
            map,
            line,
        };
        let call = Call {
            words,
            from,
            failing,
        };
        expect(&rt, alloc, name, call, left)?;
    }
    Ok(())
}

// Calls that fail, and what stands after them.
#[test]
fn tells_failing_calls(rt: HostRuntime) -> Result<(), Fail> {
    let alloc = rt.alloc();
    let file = file_of(alloc, EXIT_SEVEN)?;
    let new = new_file_of(alloc, file.as_slice(), NEW_EXIT_SEVEN)?;
    let from = file.as_slice();
    let new = new.as_slice();
    for (name, failing, end, out, map, line) in [
        ("the load", [1, 0], End::Host, OLD_OUT, OLD_MAP, HOST_FAULT),
        ("OUT", [2, 0], End::Host, OLD_OUT, OLD_MAP, HOST_FAULT),
        ("MAP", [3, 0], End::Host, new, OLD_MAP, HOST_FAULT),
        ("a fourth", [4, 0], End::Done, new, NEW_MAP, b"".as_slice()),
        (
            "the load and its line",
            [1, 2],
            End::Host,
            OLD_OUT,
            OLD_MAP,
            b"",
        ),
        ("OUT and its line", [2, 3], End::Host, OLD_OUT, OLD_MAP, b""),
        ("MAP and its line", [3, 4], End::Host, new, OLD_MAP, b""),
    ] {
        let words = REWRITE;
        let left = Left {
            end,
            from,
            out,
            map,
            line,
        };
        let call = Call {
            words,
            from,
            failing,
        };
        expect(&rt, alloc, name, call, left)?;
    }
    Ok(())
}

// Calls that fail where nothing is stored.
#[test]
fn tells_failing_lines(rt: HostRuntime) -> Result<(), Fail> {
    let alloc = rt.alloc();
    let file = file_of(alloc, ADD_TWO)?;
    let from = file.as_slice();
    let refused = End::Refused(Refusal::NotYet);
    for (name, words, failing, end, line) in [
        ("the load", REWRITE, [1, 0], End::Host, HOST_FAULT),
        ("a refusal's line", REWRITE, [2, 0], refused, b"".as_slice()),
        ("a third", REWRITE, [3, 0], refused, NOT_YET),
        ("a usage's line", &["rewrite"], [1, 0], End::Usage, b""),
        ("a second", &["rewrite"], [2, 0], End::Usage, USAGE),
        (
            "no file",
            &["rewrite", "no", "out", "map"],
            [0, 0],
            End::Host,
            HOST_FAULT,
        ),
        (
            "no file and no line",
            &["rewrite", "no", "out", "map"],
            [2, 0],
            End::Host,
            b"",
        ),
    ] {
        let left = nothing_stored(end, from, line);
        let call = Call {
            words,
            from,
            failing,
        };
        expect(&rt, alloc, name, call, left)?;
    }
    Ok(())
}

#[test]
fn has_statuses(rt: HostRuntime) {
    for (end, number) in [
        (End::Done, 0),
        (End::Memory, 120),
        (End::Host, 121),
        (End::TooLong, 122),
        (End::Refused(Refusal::Short), 124),
        (End::Refused(Refusal::Permission), 124),
        (End::Refused(Refusal::NotYet), 124),
        (End::Usage, 125),
    ] {
        assert_eq!(rt; status(&end), number, "{end:?}");
    }
}
