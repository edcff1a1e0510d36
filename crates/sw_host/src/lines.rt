// A list of lines that contracts see as a list of texts.
ghost use Rattle.std.specs.Prelude.{◌≡◌, ◌==◌, [], ◌∷◌, ◌++◌, length, OnOk, OnErr};

use byte_lists::ByteList;
use std::alloc::AllocError;
use std::marker::Model;

/// A list of lines, each the bytes of its text. It is made from a `Vec` and gives it back, both
/// without taking memory.
#[derive(Debug, Drop)]
pub struct LineList {
    lines: Vec<ByteList>,
}

impl Model for LineList {
    ghost use Rattle.std.specs.Prelude.{List, ℕ};

    ghost Value = { List (List ℕ) };

    ghost view = { λ l. l.lines.items };
}

impl LineList {
    /// The list of these lines.
    pub fn new(lines: Vec<ByteList>) -> LineList
        ensures { result ≡ lines.items }
    {
        LineList { lines }
    }

    /// The lines, the first that was said first.
    pub fn as_slice(&self) -> &[ByteList]
        ensures { result.now ≡ self.now }
    {
        self.lines.as_slice()
    }

    /// How many lines there are.
    pub fn len(&self) -> usize
        ensures { result ≡ length self.now }
    {
        self.lines.len()
    }

    /// There are no lines.
    pub fn is_empty(&self) -> bool
        ensures { result ≡ (length self.now == 0) }
    {
        self.lines.is_empty()
    }

    /// The `Vec` that it was made from.
    pub fn into_vec(self) -> Vec<ByteList>
        ensures { result.items ≡ self }
    {
        let LineList { lines } = self;
        lines
    }

    // One more line, after the others.
    pub(crate) fn push(&mut self, line: ByteList) -> Result<(), AllocError>
        ensures ok { OnOk result (self.new ≡ self.old ++ line ∷ []) }
        ensures err { OnErr result (self.new ≡ self.old) }
    {
        self.lines.push(line)?;
        Ok(())
    }
}
