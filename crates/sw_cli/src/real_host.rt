// The host of the process: its files and its standard streams. It tells nothing of them.
ghost use Rattle.std.specs.Prelude.{◌≡◌, ◌≢◌, ◌≤◌, length, IfOk, MatchResult, IsErrAnd};
ghost use Rattle.sw_host.specs.Told.{HasCause};
ghost use Rattle.sw_cli.specs.Counts.{CountsErr, IsFaultOf};

use crate::streams::{put_to, take_from};
use crate::transfer::{read_front, synced, write_whole};
use outside::Answer;
use std::alloc::{AllocError, Global};
use std::fs::OpenFile;
use std::io::{ErrorKind, Read, Write};
use std::rt::Files;
use std::{fs, io};
use sw_host::{Host, HostFault};

/// The error number of a put to a file descriptor that is neither 1 nor 2 (Linux: EBADF).
const NO_DESCRIPTOR: u32 = 9;

/// The files of a runtime and the standard streams, and how many loads, stores and lines failed. Nothing is held back: each put is
/// one write.
#[derive(Drop)]
pub struct RealHost<R, I, O, E> {
    rt: R,
    input: I,
    output: O,
    errors: E,
    faults: u64,
}

impl<R: Files + Eprint, I: Read, O: Write, E: Write> RealHost<R, I, O, E> {
    /// A host none of whose calls failed so far.
    pub fn new(rt: R, input: I, output: O, errors: E) -> RealHost<R, I, O, E>
        ensures { result.faults ≡ 0 }
    {
        RealHost {
            rt,
            input,
            output,
            errors,
            faults: 0,
        }
    }

    // What a call answers; an error is counted, up to the last number.
    fn answer<T>(&mut self, done: io::Result<T>) -> Result<T, HostFault>
        ensures counts { CountsErr self.old.faults self.new.faults result }
        ensures cause { HasCause self.old.faults self.new.faults result }
        ensures given { MatchResult done (λ value. result ≡ Ok value)
            (λ error. IsErrAnd result (IsFaultOf error)) }
    {
        let error = match done {
            Ok(value) => return Ok(value),
            Err(error) => error,
        };
        if self.faults < u64::MAX {
            self.faults += 1;
        }
        if error.kind() == ErrorKind::OutOfMemory {
            Err(HostFault::Memory)
        } else {
            Err(HostFault::Failed)
        }
    }

    fn read_file(&self, alloc: Global, name: &str, limit: usize) -> io::Result<Vec<u8>> {
        let mut file = fs::open(&self.rt, name)?;
        read_front(alloc, &mut file, limit)
    }

    // A file that wasn't there is made readable and writable, and no file is marked executable. The sync shows the errors of
    // a device that takes the bytes later; the kit's close shows none.
    fn write_file(&self, name: &str, bytes: &[u8]) -> io::Result<()> {
        let mut file = fs::create(&self.rt, name)?;
        write_whole(&mut file, bytes)?;
        synced(file.sync_data())
    }
}

impl<R: Files + Eprint, I: Read, O: Write, E: Write> Host for RealHost<R, I, O, E> {
    ghost use Rattle.std.specs.Prelude.{None};
    ghost use Rattle.sw_host.specs.Told.{Tells, HasCause};
    ghost use Rattle.sw_host.specs.Calls.{Loads, Stores, Takes, Puts, Lines, IsAnswerFor};
    ghost use Rattle.sw_cli.specs.Counts.{CountsErr};
    ghost use Rattle.sw_cli.specs.Streams.{ReadsOnce, WritesOnce};

    ghost told = { λ _. None };

    ghost faults = { λ host. host.faults };

    fn load(&mut self, alloc: Global, name: &str, limit: usize) -> Result<Vec<u8>, HostFault>
        ensures told { Tells None None (Loads name.now limit result) }
        ensures cause { HasCause self.old.faults self.new.faults result }
        ensures counts { CountsErr self.old.faults self.new.faults result }
    {
        let done = self.read_file(alloc, name, limit);
        self.answer(done)
    }

    fn store(&mut self, name: &str, bytes: &[u8]) -> Result<(), HostFault>
        ensures told { Tells None None (Stores name.now bytes.now result) }
        ensures cause { HasCause self.old.faults self.new.faults result }
        ensures counts { CountsErr self.old.faults self.new.faults result }
    {
        let done = self.write_file(name, bytes);
        self.answer(done)
    }

    fn take(&mut self, buf: &mut [u8]) -> Result<Answer, AllocError>
        ensures told { Tells None None (Takes buf.old buf.new result) }
        ensures answer { IfOk result (IsAnswerFor (length buf.old)) }
        ensures faults { self.old.faults ≤ self.new.faults }
        ensures uncounted { self.new.faults ≡ self.old.faults }
        ensures reads { IfOk result (λ answer. ReadsOnce (I.remaining self.old.input) (I.remaining self.new.input) answer buf.new) }
    {
        Ok(take_from(&mut self.input, buf))
    }

    fn put(&mut self, fd: u32, bytes: &[u8]) -> Result<Answer, AllocError>
        ensures told { Tells None None (Puts fd bytes.now result) }
        ensures answer { IfOk result (IsAnswerFor (length bytes.now)) }
        ensures faults { self.old.faults ≤ self.new.faults }
        ensures uncounted { self.new.faults ≡ self.old.faults }
        ensures output { fd ≡ 1 → IfOk result (λ answer.
            WritesOnce (O.contents self.old.output) (O.contents self.new.output) answer bytes.now) }
        ensures errors { fd ≡ 2 → IfOk result (λ answer.
            WritesOnce (E.contents self.old.errors) (E.contents self.new.errors) answer bytes.now) }
        ensures elsewhere { fd ≢ 1 → fd ≢ 2 → result ≡ Ok (Answer.Fail 9) }
    {
        let answer = match fd {
            1 => put_to(&mut self.output, bytes),
            2 => put_to(&mut self.errors, bytes),
            _ => Answer::Fail(NO_DESCRIPTOR),
        };
        Ok(answer)
    }

    fn line(&mut self, text: &str) -> Result<(), HostFault>
        ensures told { Tells None None (Lines text.now result) }
        ensures cause { HasCause self.old.faults self.new.faults result }
        ensures counts { CountsErr self.old.faults self.new.faults result }
    {
        let done = self.rt.eprintln(text);
        self.answer(done)
    }
}
