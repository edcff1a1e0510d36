// What is found is kept.
ghost use Rattle.std.specs.Prelude.{◌≡◌, ◌↔◌, ◌≤◌, ℕ, false, length, Contains, IsTrue, OnOk};
ghost use Rattle.plan_types.specs.declared.table.Table.{Table};
ghost use Rattle.plan_types.specs.FoundCode.{Stands, IsLeader, IsProcedureFrom, IsTableFrom};
ghost use Rattle.code_discovery.specs.Kept.{GivenIn, IsFoundAt, IsSoundSoFar};
ghost use Rattle.code_discovery.specs.Settled.{IsAsLong, IsCovered, IsMore};

use crate::kept::Kept;
use code_scan::IndexedImage;
use plan_types::Table;
use std::alloc::AllocError;

// Whether an instruction stands at an address.
fn stands(scan: &IndexedImage, at: u32) -> bool
    ensures { IsTrue result ↔ Stands scan.now at }
{
    scan.place_at(at).is_some()
}

impl Kept {
    // Keeps an instruction, where one stands.
    pub(crate) fn add_code(&mut self, scan: &IndexedImage, at: u32) -> Result<(), AllocError>
        requires sound { IsSoundSoFar scan.now self.old }
        requires found { Stands scan.now at → IsFoundAt scan.now self.old.stored at }
        ensures more { OnOk result (IsMore scan.now self.old self.new) }
        ensures kept { OnOk result (Stands scan.now at → Contains self.new.code at) }
        ensures leaders { OnOk result (self.new.leaders ≡ self.old.leaders) }
        ensures procs { OnOk result (self.new.procs ≡ self.old.procs) }
        ensures tables { OnOk result (self.new.tables ≡ self.old.tables) }
    {
        if !self.has_code(at) && stands(scan, at) {
            self.keep_code(at)?;
        }
        Ok(())
    }

    // Keeps a leader and its instruction, where one stands.
    pub(crate) fn add_leader(&mut self, scan: &IndexedImage, at: u32) -> Result<(), AllocError>
        requires sound { IsSoundSoFar scan.now self.old }
        requires leads { Stands scan.now at → IsLeader scan.now (GivenIn scan.now self.old.stored) at }
        ensures more { OnOk result (IsMore scan.now self.old self.new) }
        ensures kept { OnOk result (Stands scan.now at → Contains self.new.leaders at) }
        ensures procs { OnOk result (self.new.procs ≡ self.old.procs) }
        ensures tables { OnOk result (self.new.tables ≡ self.old.tables) }
    {
        if !self.has_leader(at) && stands(scan, at) {
            self.add_code(scan, at)?;
            self.keep_leader(at)?;
        }
        Ok(())
    }

    // Keeps a procedure, which leads, where an instruction stands.
    pub(crate) fn add_procedure(&mut self, scan: &IndexedImage, at: u32) -> Result<(), AllocError>
        requires sound { IsSoundSoFar scan.now self.old }
        requires leads { Stands scan.now at → IsLeader scan.now (GivenIn scan.now self.old.stored) at }
        requires named { Stands scan.now at → IsProcedureFrom scan.now (GivenIn scan.now self.old.stored) at }
        ensures more { OnOk result (IsMore scan.now self.old self.new) }
        ensures kept { OnOk result (Stands scan.now at → Contains self.new.procs at) }
        ensures tables { OnOk result (self.new.tables ≡ self.old.tables) }
    {
        if !self.has_procedure(at) && stands(scan, at) {
            self.add_leader(scan, at)?;
            self.keep_procedure(at)?;
        }
        Ok(())
    }

    // Keeps leaders.
    pub(crate) fn add_leaders(
        &mut self,
        scan: &IndexedImage,
        addresses: &[u32],
    ) -> Result<(), AllocError>
        requires sound { IsSoundSoFar scan.now self.old }
        requires lead { (a : ℕ) → Contains addresses.now a → Stands scan.now a
            → IsLeader scan.now (GivenIn scan.now self.old.stored) a }
        ensures more { OnOk result (IsMore scan.now self.old self.new) }
        ensures kept { OnOk result ((a : ℕ) → Contains addresses.now a → Stands scan.now a → Contains self.new.leaders a) }
    {
        for at in addresses {
            self.add_leader(scan, *at)?;
        }
        Ok(())
    }

    // Whether a table of its jump is kept that is at least as long.
    fn has_table(&self, table: &Table) -> bool
        ensures kept { IsTrue result → IsAsLong self.now.tables table.now }
        ensures longest { result ≡ false → (t : Table) → Contains self.now.tables t → t.jump ≡ table.now.jump
            → length t.targets ≤ length table.now.targets }
    {
        match self.count_at(table.jump) {
            None => false,
            Some(count) => table.targets.as_slice().len() <= count,
        }
    }

    // Keeps a table, where none of its jump is longer, and its targets.
    pub(crate) fn add_table(&mut self, scan: &IndexedImage, table: Table) -> Result<(), AllocError>
        requires sound { IsSoundSoFar scan.now self.old }
        requires found { IsTableFrom scan.now (GivenIn scan.now self.old.stored) table }
        ensures more { OnOk result (IsMore scan.now self.old self.new) }
        ensures covered { OnOk result (IsCovered scan.now self.new table) }
    {
        self.add_leaders(scan, table.targets.as_slice())?;
        if !self.has_table(&table) {
            self.keep_table(table)?;
        }
        Ok(())
    }
}
