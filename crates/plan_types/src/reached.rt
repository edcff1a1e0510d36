// What a walk over found code has reached.
ghost use Rattle.std.specs.Prelude.{◌≡◌, ◌+◌, ◌<◌, ◌≤◌, false, [], length, replicate, get_or, MatchOption, IfOk, OnOk, Some};
ghost use Rattle.std.specs.List.Sorted.{IsStrictlyIncreasing};
ghost use Rattle.plan_types.specs.Ascending.{addresses_of};
ghost use Rattle.plan_types.specs.Leading as spec;
ghost use Rattle.plan_types.specs.Reached.{with_index, with_address, with_addresses, marked_addresses};
ghost use Rattle.plan_types.specs.Body.{targets_at, successors_of};

use crate::search::index_of;
use crate::{Found, Place};
use std::alloc::{AllocError, Global};
use std::marker::Model;
use x86_types::Instr;

// A mark for each place, and the indices of the marked places in the order in which they were reached.
#[derive(Drop)]
pub(crate) struct Reached {
    marks: Vec<bool>,
    order: Vec<usize>,
}

impl Model for Reached {
    ghost use Rattle.plan_types.specs.Reached.{ReachedContents};

    ghost Value = { ReachedContents };

    ghost view = { λ r. record { marks = r.marks.items; order = r.order.items } };
}

impl Reached {
    // None of so many places.
    pub(crate) fn new(alloc: Global, places: usize) -> Result<Reached, AllocError>
        ensures { IfOk result (λ r. r ≡ record { marks = replicate places false; order = [] }) }
    {
        Ok(Reached {
            marks: vec![in alloc; false; places]?,
            order: Vec::new(alloc),
        })
    }

    // The index that was reached at a turn, counted from 0.
    pub(crate) fn index_at(&self, turn: usize) -> Option<usize>
        ensures { MatchOption result (length self.now.order ≤ turn)
            (λ k. (turn < length self.now.order) × (get_or self.now.order turn 0 ≡ k)) }
    {
        self.order.get(turn).copied()
    }

    // Reaches the place at an index.
    #[tactic(auto, unfolding(crate::specs::Reached::with_index))]
    fn add(&mut self, index: usize) -> Result<(), AllocError>
        requires { index < length self.old.marks }
        ensures { OnOk result (self.new ≡ with_index self.old (Some index)) }
    {
        if !self.marks[index] {
            self.order.push(index)?;
            self.marks[index] = true;
        }
        Ok(())
    }

    // Reaches the place at an address, where one is listed.
    #[tactic(auto, unfolding(crate::specs::Reached::with_index, crate::specs::Reached::with_address))]
    pub(crate) fn add_address(&mut self, code: &[Place], at: u64) -> Result<(), AllocError>
        requires sized { length self.old.marks ≡ length code.now }
        requires ascending { IsStrictlyIncreasing (addresses_of code.now) }
        ensures { OnOk result (self.new ≡ with_address code.now self.old at) }
    {
        match index_of(code, at) {
            None => Ok(()),
            Some(index) => self.add(index),
        }
    }

    // Reaches the places at addresses.
    #[tactic(auto, using(crate::proofs::Reaching::sized_address))]
    pub(crate) fn add_addresses(
        &mut self,
        code: &[Place],
        addresses: &[u32],
    ) -> Result<(), AllocError>
        requires sized { length self.old.marks ≡ length code.now }
        requires ascending { IsStrictlyIncreasing (addresses_of code.now) }
        ensures { OnOk result (self.new ≡ with_addresses code.now self.old addresses.now) }
    {
        for at in addresses {
            self.add_address(code, *at as u64)?;
        }
        Ok(())
    }

    // Reaches the place behind one.
    fn add_next(&mut self, code: &[Place], place: &Place) -> Result<(), AllocError>
        requires sized { length self.old.marks ≡ length code.now }
        requires ascending { IsStrictlyIncreasing (addresses_of code.now) }
        ensures { OnOk result (self.new ≡ with_address code.now self.old (spec.next_of place.now)) }
    {
        self.add_address(code, place.at as u64 + place.len as u64)
    }

    // Reaches the target of a displacement.
    fn add_target(&mut self, code: &[Place], place: &Place, by: u32) -> Result<(), AllocError>
        requires sized { length self.old.marks ≡ length code.now }
        requires ascending { IsStrictlyIncreasing (addresses_of code.now) }
        ensures { OnOk result (self.new ≡ with_address code.now self.old (spec.target_of place.now by)) }
    {
        self.add_address(
            code,
            (place.at as u64 + place.len as u64 + by as u64) % 0x1_0000_0000,
        )
    }

    // Reaches the targets of the table of a jump.
    fn add_table(&mut self, found: &Found, jump: u32) -> Result<(), AllocError>
        requires { length self.old.marks ≡ length found.now.code }
        ensures { OnOk result (self.new ≡ with_addresses found.now.code self.old (targets_at found.now jump)) }
    {
        let tables = found.tables.as_slice();
        match index_of(tables, jump as u64) {
            None => Ok(()),
            Some(index) => self.add_addresses(
                found.code.as_slice(),
                tables[index].targets.as_slice(),
            ),
        }
    }

    // Reaches the places at which the code goes on behind one.
    #[tactic(auto, using(crate::proofs::Reaching::sized_address))]
    pub(crate) fn add_successors(&mut self, found: &Found, place: &Place) -> Result<(), AllocError>
        requires { length self.old.marks ≡ length found.now.code }
        ensures { OnOk result (self.new ≡ with_addresses found.now.code self.old (successors_of found.now place.now)) }
    {
        let code = found.code.as_slice();
        match place.instr {
            Instr::Jmp { by } => self.add_target(code, place, by),
            Instr::Jcc { by, .. } => {
                self.add_next(code, place)?;
                self.add_target(code, place, by)
            }
            Instr::JmpTo { .. } => self.add_table(found, place.at),
            Instr::Ret { .. } => Ok(()),
            _ => self.add_next(code, place),
        }
    }

    // The addresses of the places that are reached, in the order of the places.
    #[tactic(auto, using(crate::proofs::Reaching::marked_more, crate::proofs::Reaching::marked_all))]
    pub(crate) fn addresses(&self, alloc: Global, code: &[Place]) -> Result<Vec<u32>, AllocError>
        requires { length self.now.marks ≡ length code.now }
        ensures { IfOk result (λ v. v.items ≡ marked_addresses self.now.marks code.now) }
    {
        let mut addresses = Vec::new(alloc);
        for (index, place) in code.iter().enumerate() {
            if self.marks[index] {
                addresses.push(place.at)?;
            }
        }
        Ok(addresses)
    }
}
