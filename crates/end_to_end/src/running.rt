// Programs that are run on the stated machine, by their code. What is expected is written by hand, from Intel SDM volume 2, the calls of
// Linux for the i386 and this project's own rules.
use crate::hosts::{REWRITE, end_of, line_of};
use mem_pages::RunEnd;
use outside::Answer;
use std::alloc::Global;
use std::process::Abort;
use std::test::Fail;
use sw_host::MemoryHost;
use sw_top::{End, status};
use worked_programs::{
    EXIT_SEVEN, Program, WITH_CALLS, WITH_INPUT, WITH_PROCEDURES, file_of, linked_file,
};

// The run of a program's plain file from the words `run a` ends so, and writes that.
fn expect_run(rt: &impl Abort, alloc: Global, program: &Program) -> Result<(), Fail> {
    let name = program.name;
    assert!(rt; program.text.len() <= 4096, "{name}");
    let file = file_of(alloc, program.text)?;
    let mut host = MemoryHost::new(alloc);
    host.add_file("a", file.as_slice())?;
    host.set_input(program.input)?;
    let end = end_of(alloc, &["run", "a"], &mut host)?;
    assert_eq!(rt; end, End::Ran(program.end), "{name}");
    let moved = host.moved().as_slice();
    assert_eq!(rt; moved.len(), program.written.len(), "{name}");
    for (write, bytes) in moved.iter().zip(program.written) {
        assert_eq!(rt; write.fd, 1, "{name}");
        assert_eq!(rt; write.bytes.as_slice(), *bytes, "{name}");
    }
    Ok(())
}

#[test]
fn makes_calls(rt: HostRuntime) -> Result<(), Fail> {
    for program in &WITH_CALLS {
        expect_run(&rt, rt.alloc(), program)?;
    }
    Ok(())
}

#[test]
fn runs_procedures(rt: HostRuntime) -> Result<(), Fail> {
    for program in &WITH_PROCEDURES {
        expect_run(&rt, rt.alloc(), program)?;
    }
    Ok(())
}

#[test]
fn reads_input(rt: HostRuntime) -> Result<(), Fail> {
    for program in &WITH_INPUT {
        expect_run(&rt, rt.alloc(), program)?;
    }
    Ok(())
}

// The recursion `push eax; call` comes to the end of the stack, 8 MiB and a part of a page below its start.
#[test]
fn runs_out_of_stack(rt: HostRuntime) -> Result<(), Fail> {
    let program = Program {
        name: "runs out of stack",
        text: b"\xB8\x04\0\0\0\xBB\x01\0\0\0\xB9\0\x90\x04\x08\xBA\x01\0\0\0\xCD\x80\xE8\x01\0\0\0\xF4\x50\xE8\xFA\xFF\xFF\xFF\xF4",
        input: b"",
        written: &[b"\xB8"],
        end: RunEnd::MemoryFault,
        leaves_at: None,
    };
    expect_run(&rt, rt.alloc(), &program)
}

// `mov ecx, 3; dec ecx; jne`, and the exit: ten steps.
#[test]
fn counts_its_steps(rt: HostRuntime) -> Result<(), Fail> {
    let alloc = rt.alloc();
    let file = file_of(
        alloc,
        b"\xB9\x03\0\0\0\x49\x75\xFD\xBB\0\0\0\0\xB8\x01\0\0\0\xCD\x80\xF4",
    )?;
    for (steps, end, result, line) in [
        ("9", RunEnd::Spent, 119, b"sw: steps spent".as_slice()),
        ("10", RunEnd::Exited(0), 0, b"".as_slice()),
    ] {
        let mut host = MemoryHost::new(alloc);
        host.add_file("a", file.as_slice())?;
        let ended = end_of(alloc, &["run-steps", steps, "a"], &mut host)?;
        assert_eq!(rt; ended, End::Ran(end), "{steps}");
        assert_eq!(rt; status(&ended), result, "{steps}");
        assert_eq!(rt; line_of(&host), line, "{steps}");
    }
    Ok(())
}

/// A run of this file from its name alone: the bytes that each write takes. It exits with 0.
#[derive(Drop)]
struct Answered<'a> {
    name: &'a str,
    file: &'a [u8],
    written: &'a [&'a [u8]],
}

// The run of the file over a host with answers writes that.
fn expect_answered(
    rt: &impl Abort,
    alloc: Global,
    host: &mut MemoryHost,
    row: &Answered,
) -> Result<(), Fail> {
    host.add_file(row.name, row.file)?;
    let end = end_of(alloc, &["run", row.name], host)?;
    assert_eq!(rt; end, End::Ran(RunEnd::Exited(0)), "{}", row.name);
    let moved = host.moved().as_slice();
    assert_eq!(rt; moved.len(), row.written.len(), "{}", row.name);
    for (write, bytes) in moved.iter().zip(row.written) {
        assert_eq!(rt; write.fd, 1, "{}", row.name);
        assert_eq!(rt; write.bytes.as_slice(), *bytes, "{}", row.name);
    }
    Ok(())
}

// The answer to a write is an error: the program goes on, and nothing is moved.
#[test]
fn takes_errors(rt: HostRuntime) -> Result<(), Fail> {
    let alloc = rt.alloc();
    let file = file_of(
        alloc,
        b"\xB8\x04\0\0\0\xBB\x01\0\0\0\xB9\x23\x90\x04\x08\xBA\x03\0\0\0\xCD\x80\xBB\0\0\0\0\xB8\x01\0\0\0\xCD\x80\xF4\x68\x69\x0A",
    )?;
    let mut host = MemoryHost::new(alloc);
    host.add_answer(Answer::Fail(5))?;
    let row = Answered {
        name: "a",
        file: file.as_slice(),
        written: &[b""],
    };
    expect_answered(&rt, alloc, &mut host, &row)
}

// A file as a linker lays it out, whose writes take one byte each: it writes its name.
#[test]
fn takes_short_writes(rt: HostRuntime) -> Result<(), Fail> {
    let alloc = rt.alloc();
    let file = linked_file(alloc)?;
    let mut host = MemoryHost::new(alloc);
    host.add_answer(Answer::Take(1))?;
    host.add_answer(Answer::Take(1))?;
    let row = Answered {
        name: "ab",
        file: file.as_slice(),
        written: &[b"\x61", b"\x62"],
    };
    expect_answered(&rt, alloc, &mut host, &row)
}

// A written file runs as the old one does; and another call has its line.
#[test]
fn runs_what_it_wrote(rt: HostRuntime) -> Result<(), Fail> {
    let alloc = rt.alloc();
    let file = file_of(alloc, EXIT_SEVEN)?;
    let mut host = MemoryHost::new(alloc);
    host.add_file("in", file.as_slice())?;
    assert_eq!(rt; end_of(alloc, REWRITE, &mut host)?, End::Done);
    let end = end_of(alloc, &["run", "out"], &mut host)?;
    assert_eq!(rt; end, End::Ran(RunEnd::Exited(7)));
    assert_eq!(rt; status(&end), 7);
    let other = file_of(alloc, b"\xB8\x14\0\0\0\xCD\x80\xF4")?;
    host.add_file("other", other.as_slice())?;
    let end = end_of(alloc, &["run", "other"], &mut host)?;
    assert_eq!(rt; status(&end), 117);
    assert_eq!(rt; line_of(&host), b"sw: call 20".as_slice());
    Ok(())
}
