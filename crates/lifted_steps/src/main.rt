//! Runs the list of an instruction, in place of its step, from each state of a file, and prints the states after them, in records of 128
//! bytes.
#![tactic(auto)]

#[cfg(test)]
mod ending_rows;
#[cfg(test)]
mod flow_rows;
mod lifted;
#[cfg(test)]
mod move_rows;
#[cfg(test)]
mod product_rows;
#[cfg(test)]
mod shift_rows;
mod storing;
#[cfg(test)]
mod sum_rows;
#[cfg(test)]
mod tests;
mod unit;

use lifted::lifted_step;
use std::io::{BufWriter, Write};
use std::{env, fs, io};
use step_states::{RECORD, cpu_of, fill_window, mapped, printed};

fn main(rt: HostRuntime) -> io::Result<()> {
    let mut out = BufWriter::new(rt.alloc(), io::writer(&rt))?;
    let mut pages = mapped(rt.alloc())?;
    for name in env::args(&rt)?.skip(1) {
        let bytes = fs::read(&rt, name.as_str())?;
        for state in bytes.as_slice().chunks_exact(RECORD) {
            fill_window(state, &mut pages)?;
            let mut cpu = cpu_of(state);
            let stepped = lifted_step(rt.alloc(), &state[1..16], &mut cpu, &mut pages)?;
            out.write_all(&printed(stepped, &cpu, &pages))?;
        }
    }
    out.flush()
}
