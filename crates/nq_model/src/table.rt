// Schemas, and cells of rows.
ghost use Rattle.std.specs.Prelude.{◌≡◌, IfOk};

use crate::list::List;
use crate::memory::Memory;
use crate::text::{Label, Text};
use std::alloc::Global;

/// The type of a column.
#[derive(Clone, Copy, Debug, PartialEq, Eq)]
pub enum ColumnType {
    Int,
    Bool,
    Text,
}

/// The name of a table, its columns in the order of the schema, and the columns of its key. An
/// empty key means that the table has none.
#[derive(Drop)]
pub struct TableShape {
    pub name: Label,
    pub columns: List<(Label, ColumnType)>,
    pub key: List<Label>,
}

/// The tables of a database, in the order in which they were written.
#[derive(Drop)]
pub struct Schema {
    pub tables: List<TableShape>,
}

/// One value of a row.
#[derive(Drop)]
pub enum Cell {
    Int(i64),
    Bool(bool),
    Text(Text),
}

impl Cell {
    /// A copy of the cell.
    pub fn copy(&self, alloc: Global) -> Result<Cell, Memory>
        ensures { IfOk result (λ copy. copy ≡ self.now) }
    {
        match self {
            Cell::Int(number) => Ok(Cell::Int(*number)),
            Cell::Bool(truth) => Ok(Cell::Bool(*truth)),
            Cell::Text(text) => Ok(Cell::Text(text.copy(alloc)?)),
        }
    }
}
