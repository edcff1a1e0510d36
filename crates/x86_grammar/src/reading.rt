ghost use Rattle.x86_grammar.specs.Reading.{ReadsRight};

use x86_types::Instr;

/// What a reader sees of a spelling from left to right: an instruction with the number of bytes that
/// are left behind it, how many bytes are missing at least, or that no bytes more make a spelling.
#[derive(Clone, Copy)]
pub enum Seen {
    Found(Instr, usize),
    Needs(usize),
    Never,
}

/// Reading from left to right finds each spelling's instruction, whatever follows, and what it finds
/// is spelled; it asks for bytes at each front of a spelling, for no more than are missing, and
/// with so many bytes more there is a spelling.
pub fn reading_is_right()
    ensures right { ReadsRight }
{}
