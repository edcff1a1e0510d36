// The bytes of tables, in order, so that a word is compared with few of them.
ghost use Rattle.std.specs.Prelude.{◌≡◌, ◌↔◌, ◌+◌, ◌*◌, IsTrue, IfOk};
ghost use Rattle.code_discovery.specs.Extents.{IsClear, TellsOf, extent_of, raised};

use crate::table_map::TableMap;
use plan_types::Table;
use std::alloc::{AllocError, Global};
use std::marker::Model;

// From where to where bytes of a table stand.
#[derive(Clone, Copy)]
pub(crate) struct TableExtent {
    pub(crate) start: u32,
    pub(crate) end: u128,
}

// That of a table of so many words.
fn extent(start: u32, count: usize) -> TableExtent
    ensures { result ≡ record { start = start; end = start + 4 * count } }
{
    TableExtent {
        start,
        end: u128::from(start) + 4 * count as u128,
    }
}

// That of a table.
#[tactic(auto, unfolding(crate::specs::Extents::extent_of))]
pub(crate) fn extent_of(table: &Table) -> TableExtent
    ensures { result ≡ extent_of table.now }
{
    extent(table.start, table.targets.as_slice().len())
}

// Extents in the order of their starts, each with the greatest end up to it.
#[derive(Drop)]
pub(crate) struct TableExtents {
    extents: Vec<TableExtent>,
}

impl Model for TableExtents {
    ghost use Rattle.std.specs.Prelude.{List};
    ghost use Rattle.code_discovery.specs.declared.table_extents.TableExtent.{TableExtent};

    ghost Value = { List TableExtent };

    ghost use Rattle.code_discovery.specs.Extents.{AreInOrder};

    ghost view = { λ e. e.extents.items };

    ghost invariant = { λ e. AreInOrder e.extents.items };
}

// The same extents, each with the greatest end up to it.
fn raise(alloc: Global, ordered: &[TableExtent]) -> Result<Vec<TableExtent>, AllocError>
    ensures { IfOk result (λ v. v.items ≡ raised 0 ordered.now) }
{
    let mut extents = Vec::new(alloc);
    let mut end = 0;
    for extent in ordered {
        end = extent.end.max(end);
        extents.push(TableExtent {
            start: extent.start,
            end,
        })?;
    }
    Ok(extents)
}

impl TableExtents {
    // Those of tables.
    pub(crate) fn new(alloc: Global, tables: &TableMap) -> Result<TableExtents, AllocError>
        ensures { IfOk result (λ e. TellsOf tables.now e) }
    {
        let mut ordered = tables.extents(alloc)?;
        ordered.sort_unstable_by_key(|extent| extent.start);
        let extents = raise(alloc, ordered.as_slice())?;
        Ok(TableExtents { extents })
    }

    // Whether none of them shares a byte with a word.
    pub(crate) fn is_clear(&self, at: u32) -> bool
        ensures { IsTrue result ↔ IsClear self.now at }
    {
        let end = u64::from(at) + 4;
        let count = self
            .extents
            .as_slice()
            .partition_point(|extent| u64::from(extent.start) < end);
        count == 0 || self.extents.as_slice()[count - 1].end <= u128::from(at)
    }
}
