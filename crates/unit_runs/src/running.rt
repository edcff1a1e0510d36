// Each worked program is found, its unit is made, and the unit ends as the program does, with the same writes. Where a program leaves what is
// found, the unit stops there; where it uses an unspecified value, the unit has made the writes before, and nothing is asked of it behind them.
use crate::units::end_of;
use elf_image::{Room, read_image};
use mem_pages::RunEnd;
use outside::Answer;
use std::alloc::Global;
use std::process::Abort;
use std::test::Fail;
use sw_host::MemoryHost;
use unit_machine::UnitEnd;
use worked_programs::{Program, WITH_CALLS, WITH_INPUT, WITH_PROCEDURES, file_of, linked_file};

// How the unit of a program ends; nothing where nothing is asked.
fn wanted_of(program: &Program) -> Option<UnitEnd> {
    if let Some(at) = program.leaves_at {
        return Some(UnitEnd::Stopped(at));
    }
    match program.end {
        RunEnd::Unspecified => None,
        end => Some(UnitEnd::Run(end)),
    }
}

fn expect_writes(rt: &impl Abort, name: &str, host: &MemoryHost, written: &[&[u8]]) {
    let moved = host.moved().as_slice();
    assert!(rt; written.len() <= moved.len(), "{name}");
    for (write, bytes) in moved.iter().zip(written) {
        assert_eq!(rt; write.fd, 1, "{name}");
        assert_eq!(rt; write.bytes.as_slice(), *bytes, "{name}");
    }
}

fn expect_unit(rt: &impl Abort, alloc: Global, program: &Program) -> Result<(), Fail> {
    let name = program.name;
    assert!(rt; program.text.len() <= 4096, "{name}");
    let file = file_of(alloc, program.text)?;
    let image = read_image(alloc, file.as_slice(), Room::Source)?;
    let mut host = MemoryHost::new(alloc);
    host.set_input(program.input)?;
    let end = end_of(rt, alloc, &image, *b"a\0", &mut host)?;
    expect_writes(rt, name, &host, program.written);
    if let Some(wanted) = wanted_of(program) {
        assert_eq!(rt; end, wanted, "{name}");
        assert_eq!(rt;
            host.moved().as_slice().len(),
            program.written.len(),
            "{name}"
        );
    }
    Ok(())
}

#[test]
fn makes_calls(rt: HostRuntime) -> Result<(), Fail> {
    for program in &WITH_CALLS {
        expect_unit(&rt, rt.alloc(), program)?;
    }
    Ok(())
}

#[test]
fn runs_procedures(rt: HostRuntime) -> Result<(), Fail> {
    for program in &WITH_PROCEDURES {
        expect_unit(&rt, rt.alloc(), program)?;
    }
    Ok(())
}

#[test]
fn reads_input(rt: HostRuntime) -> Result<(), Fail> {
    for program in &WITH_INPUT {
        expect_unit(&rt, rt.alloc(), program)?;
    }
    Ok(())
}

// A file as a linker lays it out, whose writes take one byte each: it writes its name.
#[test]
fn takes_short_writes(rt: HostRuntime) -> Result<(), Fail> {
    let alloc = rt.alloc();
    let file = linked_file(alloc)?;
    let image = read_image(alloc, file.as_slice(), Room::Source)?;
    let mut host = MemoryHost::new(alloc);
    host.add_answer(Answer::Take(1))?;
    host.add_answer(Answer::Take(1))?;
    let end = end_of(&rt, alloc, &image, *b"ab", &mut host)?;
    assert_eq!(rt; end, UnitEnd::Run(RunEnd::Exited(0)));
    expect_writes(&rt, "ab", &host, &[b"\x61", b"\x62"]);
    assert_eq!(rt; host.moved().as_slice().len(), 2);
    Ok(())
}
