//! Sweeps the bytes of a file as machine code, and prints what was found.
#![tactic(auto)]

mod linear;

use linear::sweep;
use std::{env, fs, io};

fn main(rt: HostRuntime) -> io::Result<()> {
    for name in env::args(&rt)?.skip(1) {
        let bytes = fs::read(&rt, name.as_str())?;
        let seen = sweep(bytes.as_slice());
        println!(rt;
            "{} instructions in {} bytes, {} bytes outside, {} short",
            seen.instructions, seen.spelled, seen.outside, seen.short
        )?;
    }
    Ok(())
}
