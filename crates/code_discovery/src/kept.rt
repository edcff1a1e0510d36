// What is found so far.
ghost use Rattle.std.specs.Prelude.{◌≡◌, ◌↔◌, [], false, length, map, Contains, IsTrue, IfOk, OnOk};
ghost use Rattle.std.specs.List.{filter_map};
ghost use Rattle.std.specs.List.Sorted.{IsStrictlyIncreasing};
ghost use Rattle.plan_types.specs.declared.table.Table.{Table};
ghost use Rattle.plan_types.specs.Ascending.{Ascends};
ghost use Rattle.plan_types.specs.FoundCode.{IsFoundCode};
ghost use Rattle.code_scan.specs.Places.{standing_place};
ghost use Rattle.code_discovery.specs.Kept.{IsSoundSoFar};
ghost use Rattle.code_discovery.specs.Popped.{IsPopped};
ghost use Rattle.code_discovery.specs.Tables.{IsLengthAt};
ghost use Rattle.code_discovery.specs.Added.{IsCodeAdded, IsLeaderAdded, IsProcedureAdded, IsTableAdded};
ghost use Rattle.code_discovery.specs.Extents.{TellsOf};
ghost use Rattle.code_discovery.specs.Whole.{IsAllFound, with_stored};

use crate::address_set::AddressSet;
use crate::table_extents::TableExtents;
use crate::table_map::TableMap;
use crate::work::Work;
use code_scan::IndexedImage;
use plan_types::{AddressList, Found, Place, PlaceList, Table, TableList, run_laws};
use std::alloc::{AllocError, Global};
use std::marker::Model;

// The addresses of instructions, leaders and procedures, the tables, what is still to be looked at, and whether the stored addresses
// are given.
#[derive(Drop)]
pub(crate) struct Kept {
    code: AddressSet,
    leaders: AddressSet,
    procs: AddressSet,
    tables: TableMap,
    todo: Vec<Work>,
    stored: bool,
}

impl Model for Kept {
    ghost use Rattle.code_discovery.specs.Kept.{FoundSoFar};

    ghost Value = { FoundSoFar };

    ghost view = { λ k. record { code = k.code; leaders = k.leaders; procs = k.procs; tables = k.tables; todo = k.todo.items; stored = k.stored } };
}

// The instructions at addresses.
fn places_at(
    alloc: Global,
    scan: &IndexedImage,
    addresses: &[u32],
) -> Result<Vec<Place>, AllocError>
    ensures { IfOk result (λ v. v.items ≡ filter_map (standing_place scan.now) addresses.now) }
{
    addresses
        .iter()
        .filter_map(|at| scan.place_at(*at))
        .collect(alloc)
}

impl Kept {
    // Nothing.
    pub(crate) fn new(alloc: Global) -> Kept
        ensures { result ≡ record { code = []; leaders = []; procs = []; tables = []; todo = []; stored = false } }
    {
        Kept {
            code: AddressSet::new(alloc),
            leaders: AddressSet::new(alloc),
            procs: AddressSet::new(alloc),
            tables: TableMap::new(alloc),
            todo: Vec::new(alloc),
            stored: false,
        }
    }

    pub(crate) fn has_code(&self, at: u32) -> bool
        ensures { IsTrue result ↔ Contains self.now.code at }
    {
        self.code.contains(at)
    }

    pub(crate) fn has_leader(&self, at: u32) -> bool
        ensures { IsTrue result ↔ Contains self.now.leaders at }
    {
        self.leaders.contains(at)
    }

    pub(crate) fn has_procedure(&self, at: u32) -> bool
        ensures { IsTrue result ↔ Contains self.now.procs at }
    {
        self.procs.contains(at)
    }

    // How many words the table of a jump has.
    pub(crate) fn count_at(&self, jump: u32) -> Option<usize>
        ensures { IsLengthAt self.now.tables jump result }
    {
        self.tables.length_at(jump)
    }

    pub(crate) fn count_code(&self) -> usize
        ensures count { result ≡ length self.now.code }
        ensures ascending { IsStrictlyIncreasing self.now.code }
    {
        self.code.len()
    }

    pub(crate) fn count_leaders(&self) -> usize
        ensures count { result ≡ length self.now.leaders }
        ensures ascending { IsStrictlyIncreasing self.now.leaders }
    {
        self.leaders.len()
    }

    // Gives the stored addresses from now on.
    pub(crate) fn give_stored(&mut self)
        ensures { self.new ≡ with_stored self.old }
    {
        self.stored = true;
    }

    // From where to where bytes of tables stand.
    pub(crate) fn table_extents(&self, alloc: Global) -> Result<TableExtents, AllocError>
        ensures { IfOk result (λ e. TellsOf self.now.tables e) }
    {
        TableExtents::new(alloc, &self.tables)
    }

    // Takes the last of what is to be looked at.
    pub(crate) fn next_work(&mut self) -> Option<Work>
        ensures { IsPopped self.old result self.new }
    {
        self.todo.pop()
    }

    pub(crate) fn keep_code(&mut self, at: u32) -> Result<(), AllocError>
        requires { Contains self.old.code at → ⊥ }
        ensures { OnOk result (IsCodeAdded self.old at self.new) }
    {
        self.code.insert(at)?;
        self.todo.push(Work::Instruction(at))?;
        Ok(())
    }

    pub(crate) fn keep_leader(&mut self, at: u32) -> Result<(), AllocError>
        requires { Contains self.old.leaders at → ⊥ }
        ensures { OnOk result (IsLeaderAdded self.old at self.new) }
    {
        self.leaders.insert(at)?;
        self.todo.push(Work::Leader(at))?;
        Ok(())
    }

    pub(crate) fn keep_procedure(&mut self, at: u32) -> Result<(), AllocError>
        requires { Contains self.old.procs at → ⊥ }
        ensures { OnOk result (IsProcedureAdded self.old at self.new) }
    {
        self.procs.insert(at)?;
        Ok(())
    }

    pub(crate) fn keep_table(&mut self, table: Table) -> Result<(), AllocError>
        ensures { OnOk result (IsTableAdded self.old table self.new) }
    {
        self.tables.put(table)?;
        Ok(())
    }

    // Does nothing: its clause says that the lists ascend.
    fn ascends(&self)
        ensures code { IsStrictlyIncreasing self.now.code }
        ensures procs { IsStrictlyIncreasing self.now.procs }
        ensures tables { IsStrictlyIncreasing (map (λ t. t.jump) self.now.tables) }
    {
        self.tables.ascends();
        let _ = self.code.len();
        let _ = self.procs.len();
    }

    // The instructions that stand at the kept addresses.
    fn places(&self, alloc: Global, scan: &IndexedImage) -> Result<Vec<Place>, AllocError>
        ensures { IfOk result (λ v. v.items ≡ filter_map (standing_place scan.now) self.now.code) }
    {
        let addresses = self.code.to_vec(alloc)?;
        let places = places_at(alloc, scan, addresses.as_slice())?;
        Ok(places)
    }

    // The procedures.
    fn procedures(&self, alloc: Global) -> Result<Vec<u32>, AllocError>
        ensures { IfOk result (λ v. v.items ≡ self.now.procs) }
    {
        let addresses = self.procs.to_vec(alloc)?;
        Ok(addresses)
    }

    // The tables.
    fn into_tables(self, alloc: Global) -> Result<Vec<Table>, AllocError>
        ensures { IfOk result (λ v. v.items ≡ self.tables) }
    {
        let tables = self.tables.into_vec(alloc)?;
        Ok(tables)
    }

    // The found code.
    pub(crate) fn into_found(self, alloc: Global, scan: &IndexedImage) -> Result<Found, AllocError>
        requires sound { IsSoundSoFar scan.now self }
        requires whole { IsAllFound scan.now self }
        ensures found { IfOk result (λ f. IsFoundCode scan.now f) }
        ensures size { IfOk result (λ f. length f.code ≡ length self.code) }
    {
        run_laws();
        self.ascends();
        let code = self.places(alloc, scan)?;
        let procs = self.procedures(alloc)?;
        let tables = self.into_tables(alloc)?;
        Ok(found_with(code, procs, tables))
    }
}

// Found code of lists that ascend.
fn found_with(code: Vec<Place>, procs: Vec<u32>, tables: Vec<Table>) -> Found
    requires { Ascends code.items procs.items tables.items }
    ensures { result ≡ record { code = code.items; procs = procs.items; tables = tables.items } }
{
    Found {
        code: PlaceList::new(code),
        procs: AddressList::new(procs),
        tables: TableList::new(tables),
    }
}
