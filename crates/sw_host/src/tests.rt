// What no clause says: that the calls succeed where memory is left, and the values that are meant.
use crate::{Host, HostFault, MemoryHost};
use outside::Answer;
use std::alloc::Global;
use std::test::Fail;

#[test]
fn keeps_files_and_lines(rt: HostRuntime) -> Result<(), Fail> {
    let alloc = rt.alloc();
    let mut host = MemoryHost::new(alloc);
    host.add_file("in", b"abcd")?;
    host.fail_call(6)?;
    assert_eq!(rt; host.load(alloc, "in", 3)?.as_slice(), b"abc".as_slice());
    assert_eq!(rt; host.load(alloc, "in", 5)?.as_slice(), b"abcd".as_slice());
    host.store("out", b"first")?;
    host.store("out", b"second")?;
    host.line("a line")?;
    assert_eq!(rt; host.line("no line"), Err(HostFault::Failed));
    host.add_file("in", b"")?;
    assert_eq!(rt; host.file("in"), Some(b"".as_slice()));
    assert_eq!(rt; host.file("out"), Some(b"second".as_slice()));
    assert_eq!(rt; host.file("map"), None);
    let lines = host.lines().as_slice();
    assert_eq!(rt; lines.len(), 1);
    assert_eq!(rt; lines[0].as_slice(), b"a line".as_slice());
    Ok(())
}

// Five calls, the second of which asks for a file that isn't there.
fn five_calls<H: Host>(alloc: Global, host: &mut H) -> [Option<HostFault>; 5] {
    let first = host.load(alloc, "in", 9).err();
    let second = host.load(alloc, "none", 9).err();
    let third = host.store("in", b"new").err();
    let fourth = host.line("a line").err();
    let fifth = host.load(alloc, "in", 0).err();
    [first, second, third, fourth, fifth]
}

#[test]
fn fails_by_number(rt: HostRuntime) -> Result<(), Fail> {
    let alloc = rt.alloc();
    let failed = Some(HostFault::Failed);
    for (number, answers, file, lines) in [
        (0, [None, failed, None, None, None], b"new".as_slice(), 1),
        (1, [failed, failed, None, None, None], b"new".as_slice(), 1),
        (2, [None, failed, None, None, None], b"new".as_slice(), 1),
        (3, [None, failed, failed, None, None], b"old".as_slice(), 1),
        (4, [None, failed, None, failed, None], b"new".as_slice(), 0),
        (5, [None, failed, None, None, failed], b"new".as_slice(), 1),
    ] {
        let mut host = MemoryHost::new(alloc);
        host.add_file("in", b"old")?;
        host.fail_call(number)?;
        assert_eq!(rt;
            five_calls(alloc, &mut host),
            answers,
            "call {number} fails"
        );
        assert_eq!(rt; host.file("in"), Some(file), "call {number} fails");
        assert_eq!(rt; host.lines().len(), lines, "call {number} fails");
    }
    Ok(())
}

#[test]
fn takes_input(rt: HostRuntime) -> Result<(), Fail> {
    let mut host = MemoryHost::new(rt.alloc());
    host.set_input(b"abcdefghij")?;
    let mut buf = [b'.'; 4];
    assert_eq!(rt; host.take(&mut buf)?, Answer::Take(4));
    assert_eq!(rt; buf.as_slice(), b"abcd".as_slice());
    host.add_answer(Answer::Take(1))?;
    host.add_answer(Answer::Fail(4))?;
    host.add_answer(Answer::Take(9))?;
    assert_eq!(rt; host.take(&mut buf)?, Answer::Take(1));
    assert_eq!(rt; buf.as_slice(), b"ebcd".as_slice());
    host.fail_call(3)?;
    assert_eq!(rt; host.take(&mut buf)?, Answer::Fail(5));
    assert_eq!(rt; host.take(&mut buf)?, Answer::Fail(4));
    assert_eq!(rt; buf.as_slice(), b"ebcd".as_slice());
    assert_eq!(rt; host.take(&mut buf)?, Answer::Take(4));
    assert_eq!(rt; buf.as_slice(), b"fghi".as_slice());
    assert_eq!(rt; host.take(&mut buf)?, Answer::Take(1));
    assert_eq!(rt; buf.as_slice(), b"jghi".as_slice());
    assert_eq!(rt; host.take(&mut buf)?, Answer::Take(0));
    Ok(())
}

#[test]
fn puts_bytes(rt: HostRuntime) -> Result<(), Fail> {
    let mut host = MemoryHost::new(rt.alloc());
    assert_eq!(rt; host.put(1, b"abc")?, Answer::Take(3));
    host.add_answer(Answer::Take(2))?;
    host.add_answer(Answer::Fail(4))?;
    host.add_answer(Answer::Take(9))?;
    assert_eq!(rt; host.put(2, b"abc")?, Answer::Take(2));
    host.fail_call(3)?;
    assert_eq!(rt; host.put(1, b"abc")?, Answer::Fail(5));
    assert_eq!(rt; host.put(1, b"abc")?, Answer::Fail(4));
    assert_eq!(rt; host.put(1, b"abc")?, Answer::Take(3));
    assert_eq!(rt; (host.moved().len(), host.moved().is_empty()), (5, false));
    let rows = [
        (1, b"abc".as_slice()),
        (2, b"ab".as_slice()),
        (1, b"".as_slice()),
        (1, b"".as_slice()),
        (1, b"abc".as_slice()),
    ];
    for (moved, want) in host.moved().as_slice().iter().zip(rows) {
        assert_eq!(rt; (moved.fd, moved.bytes.as_slice()), want);
    }
    Ok(())
}
