//! The program: the top call over the files, the standard streams and the words of its process.
#![tactic(auto)]

mod real_host;
mod streams;
mod transfer;

ghost use Rattle.std.specs.Prelude.{◌≡◌, ◌≢◌};
ghost use Rattle.std.specs.IoError.{error_kind};

use real_host::RealHost;
use std::io::ErrorKind;
use std::process::ExitCode;
use std::rt::Env;
use std::{env, io};
use sw_top::{status, sw};

/// The status where memory for the words is refused.
const NO_MEMORY: u8 = 120;

/// The status where the words can't be read for another cause.
const NO_WORDS: u8 = 115;

// The words without the program's name.
fn words<R: Env + AllocGlobal>(rt: &R) -> io::Result<Vec<String>> {
    Ok(env::args(rt)?.skip(1).collect(rt.alloc())?)
}

// The status where there are none, since reading them failed.
fn status_of(error: io::Error) -> u8
    ensures memory { error_kind error ≡ ErrorKind.OutOfMemory → result ≡ 120 }
    ensures other { error_kind error ≢ ErrorKind.OutOfMemory → result ≡ 115 }
{
    if error.kind() == ErrorKind::OutOfMemory {
        NO_MEMORY
    } else {
        NO_WORDS
    }
}

fn main(rt: HostRuntime) -> ExitCode {
    let words = match words(&rt) {
        Ok(words) => words,
        Err(error) => return ExitCode::from(status_of(error)),
    };
    let mut host = RealHost::new(&rt, rt.stdin(), rt.stdout(), rt.stderr());
    let end = sw(rt.alloc(), words.as_slice(), &mut host);
    ExitCode::from(status(&end))
}
