// Tables of addresses, by which a jump goes on at one of several places.
ghost use Rattle.std.specs.Prelude.{◌≡◌};

use crate::AddressList;
use std::marker::Model;

/// The table of a table jump: the jump's address, the address of the table's first word, and its words, in order, which may repeat.
#[derive(Debug, Drop)]
pub struct Table {
    pub jump: u32,
    pub start: u32,
    pub targets: AddressList,
}

/// A list of tables. It is made from a `Vec` and gives it back, both without taking memory.
#[derive(Debug, Drop)]
pub struct TableList {
    tables: Vec<Table>,
}

impl Model for TableList {
    ghost use Rattle.std.specs.Prelude.{List};
    ghost use Rattle.plan_types.specs.declared.table.Table.{Table};

    ghost Value = { List Table };

    ghost view = { λ l. l.tables.items };
}

impl TableList {
    /// The list of a `Vec`'s tables.
    pub fn new(tables: Vec<Table>) -> TableList
        ensures { result ≡ tables.items }
    {
        TableList { tables }
    }

    /// The tables, in order.
    pub fn as_slice(&self) -> &[Table]
        ensures { result.now ≡ self.now }
    {
        self.tables.as_slice()
    }
}
