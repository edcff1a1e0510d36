//! Makes one step of the processor from each state of a file, and prints the states after them, in records of 128 bytes.
#![tactic(auto)]

use std::io::{BufWriter, Write};
use std::{env, fs, io};
use step_states::{RECORD, cpu_of, fill_window, mapped, printed, single_step};

fn main(rt: HostRuntime) -> io::Result<()> {
    let mut out = BufWriter::new(rt.alloc(), io::writer(&rt))?;
    let mut pages = mapped(rt.alloc())?;
    for name in env::args(&rt)?.skip(1) {
        let bytes = fs::read(&rt, name.as_str())?;
        for state in bytes.as_slice().chunks_exact(RECORD) {
            fill_window(state, &mut pages)?;
            let mut cpu = cpu_of(state);
            let stepped = single_step(&state[1..16], &mut cpu, &mut pages)?;
            out.write_all(&printed(stepped, &cpu, &pages))?;
        }
    }
    out.flush()
}
