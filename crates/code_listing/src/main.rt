//! Shows the found code of the ELF file on its standard input: the procedures, the tables and the instructions, a line each.
#![tactic(auto)]

mod code_bytes;
mod hex_text;
mod listing;
mod listing_error;
mod read_code;

use code_scan::IndexedImage;
use listing::print_found;
use listing_error::ListingError;
use read_code::{found_code, read_file};
use std::alloc::Global;
use std::io::{self, BufWriter, ErrorKind, Read, Write};
use std::process::ExitCode;

// Prints the found code of a file, or in its place why it has none.
fn print_file<W: Write>(alloc: Global, out: &mut W, file: &[u8]) -> io::Result<ExitCode> {
    let image = match read_file(alloc, file) {
        Ok(image) => image,
        Err(error) => return print_error(out, &error),
    };
    let found = match found_code(alloc, &image) {
        Ok(found) => found,
        Err(error) => return print_error(out, &error),
    };
    let indexed = IndexedImage::new(alloc, &image)?;
    print_found(out, &indexed, &found)?;
    Ok(ExitCode::SUCCESS)
}

fn print_error<W: Write>(out: &mut W, error: &ListingError) -> io::Result<ExitCode> {
    writeln!(out, "{error}")?;
    Ok(ExitCode::FAILURE)
}

// Prints what the standard input holds.
fn print_input(rt: &HostRuntime) -> io::Result<ExitCode> {
    let mut out = BufWriter::new(rt.alloc(), io::writer(rt))?;
    let mut file = Vec::new(rt.alloc());
    rt.stdin().read_to_end(&mut file)?;
    let code = print_file(rt.alloc(), &mut out, file.as_slice())?;
    out.flush()?;
    Ok(code)
}

fn main(rt: HostRuntime) -> io::Result<ExitCode> {
    match print_input(&rt) {
        Err(error) if error.kind() == ErrorKind::OutOfMemory => {
            println!(rt; "{}", ListingError::Memory)?;
            Ok(ExitCode::FAILURE)
        }
        done => done,
    }
}
