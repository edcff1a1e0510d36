//! Reads lines of hexadecimal bytes and prints what each begins with: the length, the form's name, its fields and its
//! best spellings, or `Outside`, `Short` or `not bytes`.
#![tactic(auto)]

mod front;
mod line;
mod spelling;

ghost use Rattle.x86_grammar.specs.Fields.{HasSpelling};

use instruction_text::InstrText;
use line::Line;
use spelling::Spelling;
use std::io::{self, BufReader, BufWriter, Read, Write};
use x86_decode::Decoded;
use x86_types::Instr;

fn print_instr<W: Write>(out: &mut W, instr: Instr, length: u8) -> io::Result<()>
    requires spelled { HasSpelling instr }
{
    let text = InstrText(instr);
    let best = Spelling::best(&instr);
    let wide = Spelling::best_wide(&instr);
    writeln!(out, "{length} {text} encode={best} wide={wide}")
}

fn print_line<W: Write>(out: &mut W, line: &Line) -> io::Result<()> {
    match line.decoded() {
        None => writeln!(out, "not bytes"),
        Some(Decoded::Outside) => writeln!(out, "Outside"),
        Some(Decoded::Short) => writeln!(out, "Short"),
        Some(Decoded::One(instr, length)) => print_instr(out, instr, length),
    }
}

fn main(rt: HostRuntime) -> io::Result<()> {
    let mut out = BufWriter::new(rt.alloc(), io::writer(&rt))?;
    let mut line = Line::new();
    let mut is_begun = false;
    for byte in BufReader::new(rt.alloc(), rt.reader())?.bytes() {
        let byte = byte?;
        is_begun = byte != b'\n';
        if is_begun {
            line.take(byte);
        } else {
            print_line(&mut out, &line)?;
            line = Line::new();
        }
    }
    if is_begun {
        print_line(&mut out, &line)?;
    }
    out.flush()
}
