// One read or one write of the process's streams, and what it answers to the machine that asked for it.
ghost use Rattle.std.specs.Prelude.{◌≡◌, length};
ghost use Rattle.sw_host.specs.Calls.{IsAnswerFor};
ghost use Rattle.sw_cli.specs.Streams.{ReadsOnce, WritesOnce};

use outside::Answer;
use std::io::{ErrorKind, Read, Write};

/// The error number of a read or a write that fails (Linux: EIO).
const IO_ERROR: u32 = 5;

/// The most bytes that an answer can say.
const MOST: usize = 0xFFFF_FFFF;

/// Reads once into the front of the buffer; at the end of the input 0 bytes. A read that a signal cut short is tried again.
pub fn take_from<R: Read>(reader: &mut R, buf: &mut [u8]) -> Answer
    ensures answer { IsAnswerFor (length buf.old) result }
    ensures reads { ReadsOnce (R.remaining reader.old) (R.remaining reader.new) result buf.new }
{
    let room = buf.len().min(MOST);
    for _ in 0..u64::MAX {
        match reader.read(&mut buf[..room]) {
            Ok(count) => return Answer::Take(count as u32),
            Err(error) if error.kind() == ErrorKind::Interrupted => {}
            Err(_) => return Answer::Fail(IO_ERROR),
        }
    }
    Answer::Fail(IO_ERROR)
}

/// Writes the front of the bytes once. A write that a signal cut short is tried again.
pub fn put_to<W: Write>(writer: &mut W, bytes: &[u8]) -> Answer
    ensures answer { IsAnswerFor (length bytes.now) result }
    ensures writes { WritesOnce (W.contents writer.old) (W.contents writer.new) result bytes.now }
{
    let room = bytes.len().min(MOST);
    for _ in 0..u64::MAX {
        match writer.write(&bytes[..room]) {
            Ok(count) => return Answer::Take(count as u32),
            Err(error) if error.kind() == ErrorKind::Interrupted => {}
            Err(_) => return Answer::Fail(IO_ERROR),
        }
    }
    Answer::Fail(IO_ERROR)
}
