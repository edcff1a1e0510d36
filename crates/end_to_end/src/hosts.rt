// Calls over a host in memory, and what they leave there.
ghost use Rattle.std.specs.Prelude.{◌≡◌, ◌≤◌, length};

use crate::files::new_file_of;
use elf_image::Refusal;
use std::alloc::{AllocError, Global};
use std::process::Abort;
use std::test::Fail;
use sw_host::MemoryHost;
use sw_top::{End, sw};
use worked_programs::file_of;

/// What stands in OUT before a call.
pub const OLD_OUT: &[u8] = b"an old OUT";

/// What stands in MAP before a call.
pub const OLD_MAP: &[u8] = b"an old MAP";

/// The map that is written: one without entries.
pub const NEW_MAP: &[u8] = b"secondwrite-map 1\n";

/// The line after `Refused(NotYet)`.
pub const NOT_YET: &[u8] = b"sw: refused NotYet";

/// The line after `Host`.
pub const HOST_FAULT: &[u8] = b"sw: host fault";

/// The line after `Usage`.
pub const USAGE: &[u8] = b"sw: usage";

/// The line after `TooLong`.
pub const TOO_LONG: &[u8] = b"sw: file too long";

/// The words of a rewriting.
pub const REWRITE: &[&str] = &["rewrite", "in", "out", "map"];

/// A call: its words, the bytes of the file `in`, and the numbers of two calls of the host that are to fail. The first call has
/// number 1, and 0 stands for none.
#[derive(Clone, Copy)]
pub struct Call<'a> {
    pub words: &'a [&'a str],
    pub from: &'a [u8],
    pub failing: [u64; 2],
}

/// What a call leaves: its end, the bytes of the files `in`, `out` and `map`, and the line, which is empty where none was said.
#[derive(Clone, Copy)]
pub struct Left<'a> {
    pub end: End,
    pub from: &'a [u8],
    pub out: &'a [u8],
    pub map: &'a [u8],
    pub line: &'a [u8],
}

// A host with this file as IN, and an old OUT and MAP.
fn host_with(alloc: Global, from: &[u8], failing: [u64; 2]) -> Result<MemoryHost, AllocError> {
    let mut host = MemoryHost::new(alloc);
    host.add_file("in", from)?;
    host.add_file("out", OLD_OUT)?;
    host.add_file("map", OLD_MAP)?;
    host.fail_call(failing[0])?;
    host.fail_call(failing[1])?;
    Ok(host)
}

/// The end of the top call with these words.
pub fn end_of(alloc: Global, words: &[&str], host: &mut MemoryHost) -> Result<End, AllocError> {
    let mut owned = Vec::new(alloc);
    for word in words {
        owned.push(String::from_str(alloc, word)?)?;
    }
    Ok(sw(alloc, owned.as_slice(), host))
}

/// The one line that was said, or nothing where none was.
pub fn line_of(host: &MemoryHost) -> &[u8] {
    match host.lines().as_slice() {
        [] => b"",
        [line] => line.as_slice(),
        _ => b"more than one line",
    }
}

/// Makes the call, over a host with an old OUT and an old MAP, and compares what it leaves.
pub fn expect(
    rt: &impl Abort,
    alloc: Global,
    name: &str,
    call: Call,
    left: Left,
) -> Result<(), Fail> {
    let mut host = host_with(alloc, call.from, call.failing)?;
    let end = end_of(alloc, call.words, &mut host)?;
    assert_eq!(rt; end, left.end, "{name}");
    assert_eq!(rt; line_of(&host), left.line, "{name}");
    assert_eq!(rt; host.file("in"), Some(left.from), "{name}");
    assert_eq!(rt; host.file("out"), Some(left.out), "{name}");
    assert_eq!(rt; host.file("map"), Some(left.map), "{name}");
    Ok(())
}

/// The file is rewritten to the file with this new code.
pub fn expect_code(
    rt: &impl Abort,
    alloc: Global,
    name: &str,
    from: &[u8],
    code: &[u8],
) -> Result<(), Fail>
    requires plain { length from.now ≡ 8192 }
    requires fits { length code.now ≤ 8192 }
{
    let out = new_file_of(alloc, from, code)?;
    let words = REWRITE;
    let failing = [0, 0];
    let left = Left {
        end: End::Done,
        from,
        out: out.as_slice(),
        map: NEW_MAP,
        line: b"",
    };
    let call = Call {
        words,
        from,
        failing,
    };
    expect(rt, alloc, name, call, left)
}

/// What a call leaves that stores nothing.
pub fn nothing_stored<'a>(end: End, from: &'a [u8], line: &'a [u8]) -> Left<'a> {
    let (out, map) = (OLD_OUT, OLD_MAP);
    Left {
        end,
        from,
        out,
        map,
        line,
    }
}

// The line of a refusal.
fn line_of_refusal(alloc: Global, refusal: Refusal) -> Result<String, AllocError> {
    format!(in alloc; "sw: refused {refusal:?}")
}

/// The file is refused, the line of the refusal is said, and nothing is stored.
pub fn expect_refusal(
    rt: &impl Abort,
    alloc: Global,
    name: &str,
    from: &[u8],
    refusal: Refusal,
) -> Result<(), Fail> {
    let words = REWRITE;
    let failing = [0, 0];
    let line = line_of_refusal(alloc, refusal)?;
    let left = nothing_stored(End::Refused(refusal), from, line.as_bytes());
    let call = Call {
        words,
        from,
        failing,
    };
    expect(rt, alloc, name, call, left)
}

/// The plain file with this text, of at most 4096 bytes, is rewritten to the file with this new code. Without new code it is
/// refused as `NotYet`.
pub fn expect_answer(
    rt: &impl Abort,
    alloc: Global,
    name: &str,
    text: &[u8],
    code: Option<&[u8]>,
) -> Result<(), Fail> {
    assert!(rt; text.len() <= 4096, "{name}");
    let file = file_of(alloc, text)?;
    let Some(code) = code else {
        return expect_refusal(rt, alloc, name, file.as_slice(), Refusal::NotYet);
    };
    assert!(rt; code.len() <= 8192, "{name}");
    expect_code(rt, alloc, name, file.as_slice(), code)
}
