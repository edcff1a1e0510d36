// The list of an instruction beside its step: from a few states, rows of instructions of every form and width, each with how its step goes on by
// the manual. Wherever the step is specified the list has to come to the same.
ghost use Rattle.std.specs.Prelude.{◌+◌, ◌≤◌};

use crate::ending_rows::ENDINGS;
use crate::flow_rows::FLOW;
use crate::lifted::lifted_step;
use crate::move_rows::MOVES;
use crate::product_rows::PRODUCTS;
use crate::shift_rows::SHIFTS;
use crate::sum_rows::SUMS;
use std::alloc::{AllocError, Global};
use std::process::Abort;
use std::test::Fail;
use step_states::{RECORD, cpu_of, fill_window, mapped, printed, single_step};
use x86_step::Stepped;

/// An instruction that goes on from each of the states: its name and its bytes.
pub(crate) struct Row(pub &'static str, pub &'static [u8]);

/// An instruction: its name, its bytes, and what its step from each of the states comes to.
pub(crate) struct Ending(pub &'static str, pub &'static [u8], pub [Stepped; 4]);

/// The registers, by number, and the flags of a state, as a record has them.
struct Start([u32; 8], u8);

// Three registers address the window, and esp is in it.
static STARTS: [Start; 4] = [
    Start(
        [
            0x8000_0001,
            0x0000_0003,
            0x0000_0000,
            0x7FFF_FFFF,
            0x2000_0FF0,
            0x2000_0FF8,
            0x2000_0FE4,
            0x2000_0FEC,
        ],
        0,
    ),
    Start(
        [
            0xFFFF_FFFF,
            0x0000_0001,
            0x0000_0000,
            0x0000_FF80,
            0x2000_0FF0,
            0x2000_0FF8,
            0x2000_0FE4,
            0x2000_0FEC,
        ],
        31,
    ),
    Start(
        [
            0x0000_0000,
            0x0000_0000,
            0x8000_0000,
            0x0000_0000,
            0x2000_0FF0,
            0x2000_0FF8,
            0x2000_0FE4,
            0x2000_0FEC,
        ],
        21,
    ),
    Start(
        [
            0x1234_5678,
            0x0000_0021,
            0x0000_0012,
            0x8000_0000,
            0x2000_0FF0,
            0x2000_0FF8,
            0x2000_0FE4,
            0x2000_0FEC,
        ],
        10,
    ),
];

fn put_instruction(state: &mut [u8; RECORD], bytes: &[u8]) {
    for (place, byte) in bytes.iter().take(15).enumerate() {
        state[1 + place] = *byte;
    }
}

fn put_registers(state: &mut [u8; RECORD], registers: &[u32; 8]) {
    for place in 0..8usize {
        let word = registers[place].to_le_bytes();
        for offset in 0..4usize {
            state[16 + 4 * place + offset] = word[offset];
        }
    }
}

// The record of a state.
fn record_of(bytes: &[u8], start: &Start) -> [u8; RECORD] {
    let mut state = [0; RECORD];
    put_instruction(&mut state, bytes);
    put_registers(&mut state, &start.0);
    state[48] = start.1;
    for place in 64..128usize {
        state[place] = (37 * place % 256) as u8;
    }
    state
}

// What the step of the instruction of a state comes to, and what is printed of it.
fn stepped_from(
    alloc: Global,
    state: &[u8; RECORD],
) -> Result<(Option<Stepped>, [u8; RECORD]), AllocError> {
    let mut pages = mapped(alloc)?;
    fill_window(state, &mut pages)?;
    let mut cpu = cpu_of(state);
    let stepped = single_step(&state[1..16], &mut cpu, &mut pages)?;
    Ok((stepped, printed(stepped, &cpu, &pages)))
}

// The same of its list.
fn lifted_from(
    alloc: Global,
    state: &[u8; RECORD],
) -> Result<(Option<Stepped>, [u8; RECORD]), AllocError> {
    let mut pages = mapped(alloc)?;
    fill_window(state, &mut pages)?;
    let mut cpu = cpu_of(state);
    let stepped = lifted_step(alloc, &state[1..16], &mut cpu, &mut pages)?;
    Ok((stepped, printed(stepped, &cpu, &pages)))
}

// Whether bytes that a step specifies, from one place on, are known and the same of the list; the bits that say so begin at another.
fn same_bytes(
    step: &[u8; RECORD],
    list: &[u8; RECORD],
    at: usize,
    bits: usize,
    count: usize,
) -> bool
    requires bytes { at + count ≤ 128 }
    requires bits { bits + count ≤ 128 }
{
    for place in 0..count {
        let specified = step[bits + place / 8] >> (place % 8) & 1;
        let is_known = list[bits + place / 8] >> (place % 8) & 1;
        if specified == 1 && (is_known == 0 || step[at + place] != list[at + place]) {
            return false;
        }
    }
    true
}

fn same_flags(step: &[u8; RECORD], list: &[u8; RECORD]) -> bool {
    step[2] & list[2] == step[2] && (step[1] ^ list[1]) & step[2] == 0
}

// Whether the list comes to what the step comes to, wherever that is specified.
fn agrees(step: &[u8; RECORD], list: &[u8; RECORD]) -> bool {
    same_flags(step, list)
        && step[4..8] == list[4..8]
        && same_bytes(step, list, 8, 40, 32)
        && same_bytes(step, list, 64, 44, 64)
}

// The step from the state comes to this, and the list does the same.
fn expect_same(
    rt: &impl Abort,
    alloc: Global,
    name: &str,
    state: &[u8; RECORD],
    expected: Stepped,
) -> Result<(), Fail> {
    let (stepped, step) = stepped_from(alloc, state)?;
    let (lifted, list) = lifted_from(alloc, state)?;
    assert_eq!(rt; stepped, Some(expected), "{name}");
    assert_eq!(rt; lifted, Some(expected), "{name}");
    assert!(rt; expected != Stepped::Next || agrees(&step, &list), "{name}");
    Ok(())
}

fn expect_rows(rt: &impl Abort, alloc: Global, rows: &[Row]) -> Result<(), Fail> {
    for row in rows {
        for start in &STARTS {
            let state = record_of(row.1, start);
            expect_same(rt, alloc, row.0, &state, Stepped::Next)?;
        }
    }
    Ok(())
}

#[test]
fn adds_and_compares(rt: HostRuntime) -> Result<(), Fail> {
    expect_rows(&rt, rt.alloc(), &SUMS)
}

#[test]
fn multiplies(rt: HostRuntime) -> Result<(), Fail> {
    expect_rows(&rt, rt.alloc(), &PRODUCTS)
}

#[test]
fn shifts(rt: HostRuntime) -> Result<(), Fail> {
    expect_rows(&rt, rt.alloc(), &SHIFTS)
}

#[test]
fn moves(rt: HostRuntime) -> Result<(), Fail> {
    expect_rows(&rt, rt.alloc(), &MOVES)
}

#[test]
fn jumps(rt: HostRuntime) -> Result<(), Fail> {
    expect_rows(&rt, rt.alloc(), &FLOW)
}

#[test]
fn ends(rt: HostRuntime) -> Result<(), Fail> {
    for row in &ENDINGS {
        for place in 0..4usize {
            let state = record_of(row.1, &STARTS[place]);
            expect_same(&rt, rt.alloc(), row.0, &state, row.2[place])?;
        }
    }
    Ok(())
}
