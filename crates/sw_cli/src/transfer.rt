// All bytes that are wanted, through a reader or a writer that may take fewer at a time. Each says what moved where the
// reader or the writer tells its bytes; a file tells none.
ghost use Rattle.std.specs.Prelude.{◌≡◌, ◌≢◌, ◌<◌, ◌≤◌, length, take, vec_len, IfOk, OnOk, IfErr, IfSome, if◌then◌else◌, MatchResult};
ghost use Rattle.std.specs.IoError.{error_kind};
ghost use Rattle.std.specs.Io.KnownBytes.{Appends};
ghost use Rattle.sw_cli.specs.Syncs.{cannot_sync};

use std::alloc::Global;
use std::io;
use std::io::{ErrorKind, Read, Write};

/// The most bytes that are asked of one read.
const PIECE: usize = 65536;

/// The first `limit` bytes that the reader has left, or all where they are fewer.
pub fn read_front<R: Read>(alloc: Global, reader: &mut R, limit: usize) -> io::Result<Vec<u8>>
    ensures limit { IfOk result (λ bytes. vec_len bytes ≤ limit) }
    ensures front { IfOk result (λ bytes. IfSome (R.remaining reader.old)
        (λ left. bytes.items ≡ take limit left)) }
    // A read that a signal cut short is tried again.
    ensures retried { IfErr result (λ error. error_kind error ≢ ErrorKind.Interrupted) }
{
    let mut piece = vec![in alloc; 0u8; PIECE]?;
    read_pieces(alloc, reader, limit, piece.as_mut_slice())
}

// The same, through a piece of memory for one read.
fn read_pieces<R: Read>(
    alloc: Global,
    reader: &mut R,
    limit: usize,
    piece: &mut [u8],
) -> io::Result<Vec<u8>>
    requires { 0 < length piece.old }
    ensures limit { IfOk result (λ bytes. vec_len bytes ≤ limit) }
    ensures front { IfOk result (λ bytes. IfSome (R.remaining reader.old)
        (λ left. bytes.items ≡ take limit left)) }
    ensures retried { IfErr result (λ error. error_kind error ≢ ErrorKind.Interrupted) }
{
    let mut bytes = Vec::new(alloc);
    for _ in 0..u64::MAX {
        let room = piece.len().min(limit - bytes.len());
        if room == 0 {
            return Ok(bytes);
        }
        match reader.read(&mut piece[..room]) {
            Ok(0) => return Ok(bytes),
            Ok(count) => bytes.extend_from_slice(&piece[..count])?,
            Err(error) if error.kind() == ErrorKind::Interrupted => {}
            Err(error) => return Err(error),
        }
    }
    Err(io::Error::from(ErrorKind::TimedOut))
}

/// Writes all the bytes.
pub fn write_whole<W: Write>(writer: &mut W, bytes: &[u8]) -> io::Result<()>
    ensures whole { OnOk result (Appends (W.contents writer.old) (W.contents writer.new) bytes.now) }
    // So is a write.
    ensures retried { IfErr result (λ error. error_kind error ≢ ErrorKind.Interrupted) }
{
    let mut done = 0;
    for _ in 0..u64::MAX {
        if done == bytes.len() {
            return Ok(());
        }
        match writer.write(&bytes[done..]) {
            Ok(0) => return Err(io::Error::from(ErrorKind::WriteZero)),
            Ok(count) => done += count,
            Err(error) if error.kind() == ErrorKind::Interrupted => {}
            Err(error) => return Err(error),
        }
    }
    Err(io::Error::from(ErrorKind::TimedOut))
}

/// What a sync answered, where it is no failure that a pipe or a device can't be synced.
pub fn synced(done: io::Result<()>) -> io::Result<()>
    ensures { MatchResult done (λ value. result ≡ Ok value)
        (λ error. result ≡ (if cannot_sync (error_kind error) then Ok tt else Err error)) }
{
    match done {
        Err(error) if is_unsynced(error.kind()) => Ok(()),
        done => done,
    }
}

// Whether a sync that fails so says only that there is nothing to sync.
fn is_unsynced(kind: ErrorKind) -> bool
    ensures { result ≡ cannot_sync kind }
{
    match kind {
        ErrorKind::InvalidInput | ErrorKind::ReadOnlyFilesystem | ErrorKind::Unsupported => true,
        _ => false,
    }
}
