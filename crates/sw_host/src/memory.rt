#![tactic(auto, using(crate::proofs::MemoryLemmas::telling), unfolding(crate::specs::Memory::told_by, crate::specs::Memory::nothing_told, crate::specs::Memory::with_failing, crate::specs::Memory::with_input, crate::specs::Calls::called, crate::specs::Calls::loaded, crate::specs::Calls::with_file, crate::specs::Calls::with_line, crate::specs::Calls::with_answer, crate::specs::Calls::with_taken, crate::specs::Calls::with_moved))]
// A host in memory. It tells all its meanings.
ghost use Rattle.std.specs.Prelude.{◌≡◌, ◌≤◌, ℕ, ◌+◌, ◌-◌, ◌^◌, [], ◌∷◌, ◌++◌, min, length, take, Some, None, IfOk, OnOk, OnErr};
ghost use Rattle.std.specs.Option.{option_copied};
ghost use Rattle.std.specs.FinMap.{get, insert};
ghost use Rattle.outside.specs.Environment.{IsAnswer};
ghost use Rattle.sw_host.specs.Told.{last_count};
ghost use Rattle.sw_host.specs.Calls.{fails, with_file, IsAnswerFor, Loads, Stores, Takes, Puts, Lines};
ghost use Rattle.sw_host.specs.Scripts.{most_taken, scripted_answer, script_after, AnswersByScript};
ghost use Rattle.sw_host.specs.Memory.{told_by, faults_of, scripted_in, nothing_told, with_failing, with_input, CountsFault};
ghost use Rattle.sw_host.specs.Memory.{files_of, find_file, fails_at};

use crate::script::Script;
use crate::{Host, HostFault, LineList, MovedList};
use byte_lists::ByteList;
use outside::Answer;
use std::alloc::{AllocError, Global};

/// The error number of a take or a put that is to fail (Linux: EIO).
const IO_ERROR: u32 = 5;

#[derive(Drop)]
struct File {
    name: Vec<u8>,
    bytes: Vec<u8>,
}

/// A host whose files, input, writes and lines are in memory, and whose calls fail where they are told to. A take or a put that
/// isn't to fail has the next scripted answer, or moves all that is there.
#[derive(Drop)]
pub struct MemoryHost {
    alloc: Global,
    // The newest of a name comes first.
    files: Vec<File>,
    input: Vec<u8>,
    // How many bytes of the input were taken.
    taken: usize,
    script: Script,
    given: Vec<Answer>,
    moved: MovedList,
    lines: LineList,
    failing: Vec<u64>,
    calls: u64,
    faults: u64,
}

// The bytes of the newest file of that name.
fn find<'a>(files: &'a [File], name: &[u8]) -> Option<&'a [u8]>
    ensures { option_copied result ≡ find_file files.now name.now }
{
    for file in files {
        if name == file.name.as_slice() {
            return Some(file.bytes.as_slice());
        }
    }
    None
}

// Puts a file before the others.
fn put_file(
    alloc: Global,
    files: &mut Vec<File>,
    name: &[u8],
    bytes: &[u8],
) -> Result<(), AllocError>
    ensures ok { OnOk result
        (files_of files.new.items ≡ insert (files_of files.old.items) name.now bytes.now) }
    ensures err { OnErr result (files.new.items ≡ files.old.items) }
{
    let name = name.to_vec(alloc)?;
    let bytes = bytes.to_vec(alloc)?;
    files.insert(0, File { name, bytes })?;
    Ok(())
}

// At most the first `limit` bytes.
fn front(bytes: &[u8], limit: usize) -> &[u8]
    ensures { result.now ≡ take limit bytes.now }
{
    if limit < bytes.len() {
        &bytes[..limit]
    } else {
        bytes
    }
}

// As many as an answer can say.
fn count_of(number: usize) -> u32
    ensures { result ≡ min number most_taken }
{
    u32::try_from(number).unwrap_or(u32::MAX)
}

// One more, up to the last number.
fn count(number: &mut u64)
    ensures small { number.old ≤ last_count }
    ensures counted { number.new ≡ min (number.old + 1) last_count }
{
    if *number < u64::MAX {
        *number += 1;
    }
}

impl MemoryHost {
    /// A host without files, input and lines, none of whose calls is to fail, and with no scripted answer.
    pub fn new(alloc: Global) -> MemoryHost
        ensures told { told_by result ≡ nothing_told }
        ensures scripted { scripted_in result ≡ [] }
        ensures faults { faults_of result ≡ 0 }
    {
        MemoryHost {
            alloc,
            files: Vec::new(alloc),
            input: Vec::new(alloc),
            taken: 0,
            script: Script::new(alloc),
            given: Vec::new(alloc),
            moved: MovedList::new(Vec::new(alloc)),
            lines: LineList::new(Vec::new(alloc)),
            failing: Vec::new(alloc),
            calls: 0,
            faults: 0,
        }
    }

    /// Makes a file these bytes, without a call of the host.
    pub fn add_file(&mut self, name: &str, bytes: &[u8]) -> Result<(), AllocError>
        ensures ok { OnOk result (told_by self.new ≡ with_file (told_by self.old) name.now bytes.now) }
        ensures err { OnErr result (told_by self.new ≡ told_by self.old) }
        ensures scripted { scripted_in self.new ≡ scripted_in self.old }
        ensures faults { faults_of self.new ≡ faults_of self.old }
    {
        put_file(self.alloc, &mut self.files, name.as_bytes(), bytes)
    }

    /// Makes these bytes the input that is not yet taken, without a call of the host.
    pub fn set_input(&mut self, bytes: &[u8]) -> Result<(), AllocError>
        ensures ok { OnOk result (told_by self.new ≡ with_input (told_by self.old) bytes.now) }
        ensures err { OnErr result (told_by self.new ≡ told_by self.old) }
        ensures scripted { scripted_in self.new ≡ scripted_in self.old }
        ensures faults { faults_of self.new ≡ faults_of self.old }
    {
        let input = bytes.to_vec(self.alloc)?;
        self.input = input;
        self.taken = 0;
        Ok(())
    }

    /// One more scripted answer, after the others.
    pub fn add_answer(&mut self, answer: Answer) -> Result<(), AllocError>
        requires { IsAnswer answer }
        ensures ok { OnOk result (scripted_in self.new ≡ scripted_in self.old ++ answer ∷ []) }
        ensures err { OnErr result (scripted_in self.new ≡ scripted_in self.old) }
        ensures told { told_by self.new ≡ told_by self.old }
        ensures faults { faults_of self.new ≡ faults_of self.old }
    {
        self.script.push(answer)
    }

    /// The call of that number is to fail; calls of all five kinds are numbered from 1 together.
    pub fn fail_call(&mut self, number: u64) -> Result<(), AllocError>
        ensures ok { OnOk result (told_by self.new ≡ with_failing (told_by self.old) number) }
        ensures err { OnErr result (told_by self.new ≡ told_by self.old) }
        ensures scripted { scripted_in self.new ≡ scripted_in self.old }
        ensures faults { faults_of self.new ≡ faults_of self.old }
    {
        self.failing.push(number)?;
        Ok(())
    }

    /// The bytes of a file; `None` exactly where there is none of that name.
    pub fn file(&self, name: &str) -> Option<&[u8]>
        ensures { option_copied result ≡ get (told_by self.now).files name.now }
    {
        find(&self.files, name.as_bytes())
    }

    /// The lines that were said, the first of them first.
    pub fn lines(&self) -> &LineList
        ensures { result.now ≡ (told_by self.now).lines }
    {
        &self.lines
    }

    /// The writes that were made, the first of them first.
    pub fn moved(&self) -> &MovedList
        ensures { result.now ≡ (told_by self.now).moved }
    {
        &self.moved
    }

    // The input that is not yet taken.
    fn left(&self) -> &[u8]
        ensures { result.now ≡ (told_by self.now).left }
    {
        if self.taken < self.input.len() {
            &self.input[self.taken..]
        } else {
            &[]
        }
    }

    // The answer to a take or a put, where so many bytes can be moved.
    fn answer(&self, fails: bool, there: usize) -> Answer
        ensures answer { result ≡ scripted_answer fails self.now.script (min there most_taken) }
        ensures fits { IsAnswerFor there result }
    {
        if fails {
            Answer::Fail(IO_ERROR)
        } else {
            self.script.next(count_of(there))
        }
    }

    // Leaves out the scripted answer that was given. A call that was to fail gave none.
    fn advance(&mut self, fails: bool)
        ensures { self.new ≡ record self.old { script = script_after fails self.old.script } }
    {
        if !fails {
            self.script.pass();
        }
    }

    // Counts a call, and says whether it is to fail.
    fn begin(&mut self) -> bool
        ensures called { self.new ≡ record self.old { calls = min (self.old.calls + 1) last_count } }
        ensures fails { result ≡ fails_at self.new.failing.items self.new.calls }
    {
        count(&mut self.calls);
        self.failing.contains(&self.calls)
    }

    // A fault that is counted.
    fn fail(&mut self) -> HostFault
        ensures failed { result ≡ HostFault.Failed }
        ensures small { self.old.faults ≤ last_count }
        ensures counted { self.new ≡ record self.old { faults = min (self.old.faults + 1) last_count } }
    {
        count(&mut self.faults);
        HostFault::Failed
    }
}

impl Host for MemoryHost {
    ghost use Rattle.std.specs.Prelude.{Some};
    ghost use Rattle.sw_host.specs.Memory.{told_by, faults_of};

    ghost told = { λ m. Some (told_by m) };

    ghost faults = { λ m. faults_of m };

    fn load(&mut self, alloc: Global, name: &str, limit: usize) -> Result<Vec<u8>, HostFault>
        ensures told { Loads name.now limit result (told_by self.old) (told_by self.new) }
        ensures faults { CountsFault (faults_of self.old) (faults_of self.new) result }
        ensures scripted { scripted_in self.new ≡ scripted_in self.old }
    {
        if self.begin() {
            return Err(self.fail());
        }
        let Some(bytes) = find(&self.files, name.as_bytes()) else {
            return Err(self.fail());
        };
        Ok(front(bytes, limit).to_vec(alloc)?)
    }

    fn store(&mut self, name: &str, bytes: &[u8]) -> Result<(), HostFault>
        ensures told { Stores name.now bytes.now result (told_by self.old) (told_by self.new) }
        ensures faults { CountsFault (faults_of self.old) (faults_of self.new) result }
        ensures scripted { scripted_in self.new ≡ scripted_in self.old }
        ensures kept { OnErr result ((told_by self.new).files ≡ (told_by self.old).files) }
    {
        if self.begin() {
            return Err(self.fail());
        }
        put_file(self.alloc, &mut self.files, name.as_bytes(), bytes)?;
        Ok(())
    }

    fn take(&mut self, buf: &mut [u8]) -> Result<Answer, AllocError>
        ensures told { Takes buf.old buf.new result (told_by self.old) (told_by self.new) }
        ensures answer { IfOk result (IsAnswerFor (length buf.old)) }
        ensures faults { faults_of self.new ≡ faults_of self.old }
        ensures scripted { AnswersByScript (fails (told_by self.new)) (min (length buf.old) (length (told_by self.old).left))
            result (scripted_in self.old) (scripted_in self.new) }
    {
        let fails = self.begin();
        let answer = self.answer(fails, buf.len().min(self.left().len()));
        self.given.push(answer)?;
        self.advance(fails);
        if let Answer::Take(count) = answer {
            let count = count as usize;
            buf[..count].copy_from_slice(&self.left()[..count]);
            self.taken += count;
        }
        Ok(answer)
    }

    fn put(&mut self, fd: u32, bytes: &[u8]) -> Result<Answer, AllocError>
        ensures told { Puts fd bytes.now result (told_by self.old) (told_by self.new) }
        ensures answer { IfOk result (IsAnswerFor (length bytes.now)) }
        ensures faults { faults_of self.new ≡ faults_of self.old }
        ensures scripted { AnswersByScript (fails (told_by self.new)) (length bytes.now) result
            (scripted_in self.old) (scripted_in self.new) }
    {
        let fails = self.begin();
        let answer = self.answer(fails, bytes.len());
        let count = match answer {
            Answer::Take(count) => count as usize,
            Answer::Fail(_) => 0,
        };
        let bytes = ByteList::new(bytes[..count].to_vec(self.alloc)?);
        self.given.push(answer)?;
        if self.moved.push(fd, bytes).is_err() {
            self.given.pop();
            return Err(AllocError);
        }
        self.advance(fails);
        Ok(answer)
    }

    fn line(&mut self, text: &str) -> Result<(), HostFault>
        ensures told { Lines text.now result (told_by self.old) (told_by self.new) }
        ensures faults { CountsFault (faults_of self.old) (faults_of self.new) result }
        ensures scripted { scripted_in self.new ≡ scripted_in self.old }
    {
        if self.begin() {
            return Err(self.fail());
        }
        let text = text.as_bytes().to_vec(self.alloc)?;
        self.lines.push(ByteList::new(text))?;
        Ok(())
    }
}
