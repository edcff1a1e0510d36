//! Sweeps the bytes of a file as machine code, encodes each instruction found, and prints how many bytes
//! that takes.
#![tactic(auto)]

mod recoding;
mod sweep;

use std::{env, fs, io};
use sweep::sum_up;

fn main(rt: HostRuntime) -> io::Result<()> {
    for name in env::args(&rt)?.skip(1) {
        let bytes = fs::read(&rt, name.as_str())?;
        let seen = sum_up(bytes.as_slice());
        println!(rt;
            "{} instructions in {} bytes, {} bytes once encoded, {} instructions unchanged, {} bytes outside or short",
            seen.instructions, seen.spelled, seen.best, seen.kept, seen.skipped
        )?;
    }
    Ok(())
}
