// The tables of table jumps.
ghost use Rattle.std.specs.Prelude.{◌≡◌, [], map, IfOk, OnOk};
ghost use Rattle.std.specs.List.Sorted.{IsStrictlyIncreasing};
ghost use Rattle.plan_types.specs.declared.table.Table.{Table};
ghost use Rattle.code_discovery.specs.Extents.{extent_of};
ghost use Rattle.code_discovery.specs.Tables.{IsLengthAt, IsPut};

use crate::table_extents::{TableExtent, extent_of};
use plan_types::Table;
use std::alloc::{AllocError, Global};
use std::collections::BTreeMap;
use std::marker::Model;

// Tables, at most one for each jump, seen as the list of them, ascending by their jumps.
#[derive(Drop)]
pub(crate) struct TableMap {
    tables: BTreeMap<u32, Table>,
}

impl Model for TableMap {
    ghost use Rattle.std.specs.Prelude.{List};
    ghost use Rattle.plan_types.specs.declared.table.Table.{Table};

    ghost Value = { List Table };

    ghost use Rattle.std.specs.BTreeMap.{values};
    ghost use Rattle.code_discovery.specs.Tables.{IsTableMap};

    ghost view = { λ m. values m.tables };

    ghost invariant = { λ m. IsTableMap m.tables };
}

impl TableMap {
    pub(crate) fn new(alloc: Global) -> TableMap
        ensures { result ≡ [] }
    {
        TableMap {
            tables: BTreeMap::new(alloc),
        }
    }

    // How many words the table of a jump has.
    pub(crate) fn length_at(&self, jump: u32) -> Option<usize>
        ensures { IsLengthAt self.now jump result }
    {
        match self.tables.get(&jump) {
            None => None,
            Some(table) => Some(table.targets.as_slice().len()),
        }
    }

    // From where to where their bytes stand.
    pub(crate) fn extents(&self, alloc: Global) -> Result<Vec<TableExtent>, AllocError>
        ensures { IfOk result (λ v. v.items ≡ map extent_of self.now) }
    {
        self.tables.values().map(extent_of).collect(alloc)
    }

    // Adds a table, in place of the one of the same jump.
    pub(crate) fn put(&mut self, table: Table) -> Result<(), AllocError>
        ensures { OnOk result (IsPut self.old table self.new) }
    {
        self.tables.insert(table.jump, table)?;
        Ok(())
    }

    // Does nothing: its clause says that the tables ascend.
    pub(crate) fn ascends(&self)
        ensures { IsStrictlyIncreasing (map (λ t. t.jump) self.now) }
    {
        let _ = &self.tables;
    }

    // The tables, in order.
    pub(crate) fn into_vec(self, alloc: Global) -> Result<Vec<Table>, AllocError>
        ensures { IfOk result (λ v. v.items ≡ self) }
    {
        self.tables.into_values().collect(alloc)
    }
}
