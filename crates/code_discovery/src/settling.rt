// What has been found is looked at.
ghost use Rattle.std.specs.Prelude.{◌≡◌, ◌+◌, ◌≤◌, ℕ, false, length, Contains, Some, OnOk};
ghost use Rattle.image.specs.declared.room.Room.TheVariants.{Any};
ghost use Rattle.image.specs.Rooms.{room_end};
ghost use Rattle.plan_types.specs.declared.table.Table.{Table};
ghost use Rattle.plan_types.specs.Straight as straight;
ghost use Rattle.plan_types.specs.Tables.{table_in};
ghost use Rattle.plan_types.specs.Leading as spec;
ghost use Rattle.plan_types.specs.FoundCode.{Stands, run_in, IsLeader, IsFoundFrom, IsTableFrom};
ghost use Rattle.code_discovery.specs.Kept.{GivenIn, IsFoundAt, IsSoundSoFar};
ghost use Rattle.code_discovery.specs.Settled.{IsCovered, IsSettledPlace, IsSettledCode, IsSettledLeader, IsMore};

use crate::kept::Kept;
use crate::leading::{leader_of, next_of, procedure_of};
use code_scan::{IndexedImage, ends_run};
use plan_types::{Place, PlaceList, run_laws};
use std::alloc::{AllocError, Global};

// A table jump and the eight instructions before it.
const NEAR: usize = 9;

impl Kept {
    // Keeps the leader beside the next instruction.
    fn add_leader_of(&mut self, scan: &IndexedImage, place: &Place) -> Result<(), AllocError>
        requires sound { IsSoundSoFar scan.now self.old }
        requires within { place.now.at + place.now.len ≤ room_end Any }
        requires found { IsFoundFrom scan.now (GivenIn scan.now self.old.stored) place.now }
        ensures more { OnOk result (IsMore scan.now self.old self.new) }
        ensures leads { OnOk result ((a : ℕ) → Contains (spec.leaders_of place.now) a → Stands scan.now a → Contains self.new.leaders a) }
    {
        match leader_of(place) {
            None => Ok(()),
            Some(at) => {
                self.add_leader(scan, at)?;
                Ok(())
            }
        }
    }

    // Keeps the procedure that an instruction names.
    fn add_procedure_of(&mut self, scan: &IndexedImage, place: &Place) -> Result<(), AllocError>
        requires sound { IsSoundSoFar scan.now self.old }
        requires found { IsFoundFrom scan.now (GivenIn scan.now self.old.stored) place.now }
        ensures more { OnOk result (IsMore scan.now self.old self.new) }
        ensures names { OnOk result ((a : ℕ) → Contains (spec.procedures_of scan.now place.now) a → Stands scan.now a → Contains self.new.procs a) }
    {
        match procedure_of(scan, place) {
            None => Ok(()),
            Some(at) => {
                self.add_procedure(scan, at)?;
                Ok(())
            }
        }
    }

    // Keeps the next instruction, where the run goes on.
    fn add_next(&mut self, scan: &IndexedImage, place: &Place) -> Result<(), AllocError>
        requires sound { IsSoundSoFar scan.now self.old }
        requires within { place.now.at + place.now.len ≤ room_end Any }
        requires found { IsFoundFrom scan.now (GivenIn scan.now self.old.stored) place.now }
        ensures more { OnOk result (IsMore scan.now self.old self.new) }
        ensures next { OnOk result (straight.ends_run place.now.instr ≡ false → Stands scan.now (spec.next_of place.now)
            → Contains self.new.code (spec.next_of place.now)) }
    {
        run_laws();
        if !ends_run(&place.instr) {
            self.add_code(scan, next_of(place))?;
        }
        Ok(())
    }

    // Keeps the table of a run.
    fn add_table_of(
        &mut self,
        alloc: Global,
        scan: &IndexedImage,
        run: &PlaceList,
    ) -> Result<(), AllocError>
        requires sound { IsSoundSoFar scan.now self.old }
        requires found { (t : Table) → table_in scan.now run.now ≡ Some t → IsTableFrom scan.now (GivenIn scan.now self.old.stored) t }
        ensures more { OnOk result (IsMore scan.now self.old self.new) }
        ensures covered { OnOk result ((t : Table) → table_in scan.now run.now ≡ Some t → IsCovered scan.now self.new t) }
    {
        match scan.table_at(alloc, run)? {
            None => Ok(()),
            Some(table) => {
                self.add_table(scan, table)?;
                Ok(())
            }
        }
    }

    // Keeps the table of a jump that stands eight instructions behind an instruction.
    fn add_table_behind(
        &mut self,
        alloc: Global,
        scan: &IndexedImage,
        place: &Place,
    ) -> Result<(), AllocError>
        requires sound { IsSoundSoFar scan.now self.old }
        requires found { IsFoundFrom scan.now (GivenIn scan.now self.old.stored) place.now }
        ensures more { OnOk result (IsMore scan.now self.old self.new) }
        ensures covered { OnOk result ((t : Table) → length (run_in scan.now 9 place.now.at) ≡ 9
            → table_in scan.now (run_in scan.now 9 place.now.at) ≡ Some t → IsCovered scan.now self.new t) }
    {
        let run = scan.run_up_to(alloc, place.at, NEAR)?;
        if run.as_slice().len() < NEAR {
            return Ok(());
        }
        self.add_table_of(alloc, scan, &run)?;
        Ok(())
    }

    // Looks at an instruction.
    fn settle_place(
        &mut self,
        alloc: Global,
        scan: &IndexedImage,
        place: &Place,
    ) -> Result<(), AllocError>
        requires sound { IsSoundSoFar scan.now self.old }
        requires within { place.now.at + place.now.len ≤ room_end Any }
        requires found { IsFoundFrom scan.now (GivenIn scan.now self.old.stored) place.now }
        ensures more { OnOk result (IsMore scan.now self.old self.new) }
        ensures settled { OnOk result (IsSettledPlace scan.now self.new place.now) }
    {
        self.add_leader_of(scan, place)?;
        self.add_procedure_of(scan, place)?;
        self.add_next(scan, place)?;
        self.add_table_behind(alloc, scan, place)?;
        Ok(())
    }

    // Looks at the instruction at an address.
    pub(crate) fn settle_code(
        &mut self,
        alloc: Global,
        scan: &IndexedImage,
        at: u32,
    ) -> Result<(), AllocError>
        requires sound { IsSoundSoFar scan.now self.old }
        requires found { IsFoundAt scan.now self.old.stored at }
        ensures more { OnOk result (IsMore scan.now self.old self.new) }
        ensures settled { OnOk result (IsSettledCode scan.now self.new at) }
    {
        run_laws();
        match scan.place_at(at) {
            None => Ok(()),
            Some(place) => {
                self.settle_place(alloc, scan, &place)?;
                Ok(())
            }
        }
    }

    // Looks at a leader.
    pub(crate) fn settle_leader(
        &mut self,
        alloc: Global,
        scan: &IndexedImage,
        at: u32,
    ) -> Result<(), AllocError>
        requires sound { IsSoundSoFar scan.now self.old }
        requires leads { IsLeader scan.now (GivenIn scan.now self.old.stored) at }
        ensures more { OnOk result (IsMore scan.now self.old self.new) }
        ensures settled { OnOk result (IsSettledLeader scan.now self.new at) }
    {
        let run = scan.run_up_to(alloc, at, NEAR)?;
        self.add_table_of(alloc, scan, &run)?;
        Ok(())
    }
}
