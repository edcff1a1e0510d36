//! Makes the unit of the ELF file on its standard input, and prints how many instructions, blocks and operations there are. With the word
//! `found` it makes no unit, and prints the number of instructions alone.
#![tactic(auto)]

mod counting;

use code_discovery::discover;
use counting::{print_unit, unit_of};
use elf_image::{Room, read_image};
use std::alloc::Global;
use std::env;
use std::fmt::Display;
use std::io::{self, BufWriter, Read, Write};
use std::process::ExitCode;

fn print_error<W: Write, E: Display>(out: &mut W, error: &E) -> io::Result<ExitCode> {
    writeln!(out, "{error}")?;
    Ok(ExitCode::FAILURE)
}

// Prints the numbers of a file, or in their place why it has none.
fn print_file<W: Write>(
    alloc: Global,
    out: &mut W,
    file: &[u8],
    makes_unit: bool,
) -> io::Result<ExitCode> {
    let image = match read_image(alloc, file, Room::Source) {
        Ok(image) => image,
        Err(error) => return print_error(out, &error),
    };
    let found = match discover(alloc, &image) {
        Ok(found) => found,
        Err(error) => return print_error(out, &error),
    };
    writeln!(out, "{} instructions", found.code.as_slice().len())?;
    if makes_unit {
        let unit = unit_of(alloc, &image, &found)?;
        print_unit(out, &unit)?;
    }
    Ok(ExitCode::SUCCESS)
}

// Whether the program is called without the word `found`.
fn makes_unit(rt: &HostRuntime) -> io::Result<bool> {
    for word in env::args(rt)?.skip(1) {
        if word.as_str() == "found" {
            return Ok(false);
        }
    }
    Ok(true)
}

fn main(rt: HostRuntime) -> io::Result<ExitCode> {
    let mut out = BufWriter::new(rt.alloc(), io::writer(&rt))?;
    let mut file = Vec::new(rt.alloc());
    rt.stdin().read_to_end(&mut file)?;
    let makes = makes_unit(&rt)?;
    let code = print_file(rt.alloc(), &mut out, file.as_slice(), makes)?;
    out.flush()?;
    Ok(code)
}
