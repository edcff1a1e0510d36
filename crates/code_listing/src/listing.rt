// The lines of a listing.
use crate::code_bytes::CodeBytes;
use crate::hex_text::AddressText;
use code_scan::IndexedImage;
use instruction_text::InstrText;
use plan_types::{Found, Place, Table};
use std::io::{self, Write};

// As `table 08049022 start 08049054 targets 08049029 08049030`.
fn print_table<W: Write>(out: &mut W, table: &Table) -> io::Result<()> {
    let jump = AddressText(table.jump);
    let start = AddressText(table.start);
    write!(out, "table {jump} start {start} targets")?;
    for target in table.targets.as_slice() {
        let target = AddressText(*target);
        write!(out, " {target}")?;
    }
    writeln!(out)
}

// As `08049000 B803000000 Mov width=4 to=eax from=0x00000003`.
fn print_place<W: Write>(out: &mut W, image: &IndexedImage<'_>, place: &Place) -> io::Result<()> {
    let at = AddressText(place.at);
    let bytes = CodeBytes::at(image, place.at, place.len);
    let text = InstrText(place.instr);
    writeln!(out, "{at} {bytes} {text}")
}

/// Prints found code: its procedures, its tables and its instructions, each in the order in which they are listed, with the bytes that
/// the image has at the instructions.
pub fn print_found<W: Write>(
    out: &mut W,
    image: &IndexedImage<'_>,
    found: &Found,
) -> io::Result<()> {
    for entry in found.procs.as_slice() {
        let entry = AddressText(*entry);
        writeln!(out, "procedure {entry}")?;
    }
    for table in found.tables.as_slice() {
        print_table(out, table)?;
    }
    for place in found.code.as_slice() {
        print_place(out, image, place)?;
    }
    Ok(())
}
