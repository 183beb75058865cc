// The rows of a JSON table.
ghost use Rattle.std.specs.Prelude.{◌≡◌, ◌≢◌, ◌+◌, [], ◌∷◌, ◌++◌, length, map, All, IfOk, IfErr, Some, None, option_map};
ghost use Rattle.nq_model.specs.CellRefs.{cell_seen};
ghost use Rattle.nq_model.specs.Cells.{RowFits};
ghost use Rattle.nq_model.specs.SchemaTables.{IsSound, IsTableOf};
ghost use Rattle.nq_model.specs.Tables.{types_of};
ghost use Rattle.row_keys.specs.FirstRows.{KeepsIndex};
ghost use Rattle.serde_json.specs.Find.{get_member};
ghost use Rattle.serde_json.specs.View.{view};
ghost use Rattle.nq_json.specs.Reading.{members as members_of};
ghost use Rattle.nq_json.specs.Cells.{Gives};
ghost use Rattle.nq_json.specs.Tables.{cell_of, cell_under, has_names, has_columns, cells_from, row_at, next_row, data_of, table_of};
ghost use Rattle.nq_json.specs.declared.tables.JsonTableFault.TheVariants as fault;

use nq_model::{CellRef, ColumnType, Label, Memory, TableShape};
use row_keys::{KeyIndex, earlier_twin};
use rows::{Rows, Table};
use serde_json::{Map, Value as Json};
use std::alloc::Global;
use thiserror::Error;

/// Why a JSON table is refused. Rows and columns are counted from 1.
#[derive(Clone, Copy, Debug, PartialEq, Eq, Error)]
pub enum JsonTableFault {
    /// Too little memory, at any text.
    #[error("want of memory")]
    Memory,
    /// The bytes are no JSON text.
    #[error("the text is no JSON")]
    NotJson,
    /// The JSON value is no array.
    #[error("the value is no array")]
    NotArray,
    /// A row is no object, or its keys are not the names of the columns.
    #[error("row {row} is no object with the names of the columns as keys")]
    BadRow { row: u64 },
    /// A cell is not of its column's type.
    #[error("row {row} column {column} is not of the column's type")]
    BadCell { row: u64, column: u64 },
    /// A row has the key cells of an earlier one, the first that has them.
    #[error("row {row} has the key of row {earlier}")]
    TwiceKey { row: u64, earlier: u64 },
}

impl From<Memory> for JsonTableFault {
    ghost use Rattle.std.specs.Prelude.{◌≡◌};
    ghost use Rattle.nq_json.specs.declared.tables.JsonTableFault.TheVariants as fault;

    ghost from_gives = { λ _ e. e ≡ fault.Memory };

    fn from(_: Memory) -> JsonTableFault {
        JsonTableFault::Memory
    }
}

// The value of a JSON text.
#[tactic(auto, using(crate::proofs::Texts::data_read, crate::proofs::Texts::data_none))]
fn parse(alloc: Global, text: &[u8]) -> Result<Json, JsonTableFault>
    ensures ok { IfOk result (λ json. data_of text.now ≡ Some (view json)) }
    ensures err { IfErr result (λ e. e ≢ fault.Memory
        → (e ≡ fault.NotJson) × (data_of text.now ≡ None)) }
{
    match Json::from_slice(alloc, text) {
        Ok(json) => Ok(json),
        Err(error) => if error.is_memory() {
            Err(JsonTableFault::Memory)
        } else {
            Err(JsonTableFault::NotJson)
        },
    }
}

// The cell that a JSON value is in a column of a type. Its text is lent from the JSON value.
fn cell_of(column_type: ColumnType, json: &Json) -> Option<CellRef<'_>>
    ensures { Gives (cell_of column_type (view json.now)) column_type result }
{
    match column_type {
        ColumnType::Int => Some(CellRef::Int(json.as_i64()?)),
        ColumnType::Bool => Some(CellRef::Bool(json.as_bool()?)),
        ColumnType::Text => Some(CellRef::Text(json.as_str()?)),
    }
}

// The member under a name, if there is one.
fn member_under<'j>(members: &'j Map<String, Json>, name: &str) -> Option<&'j Json>
    ensures { option_map (λ json. view json.now) result
        ≡ get_member name.now (members_of members.now) }
{
    members.get(name)
}

// Whether the keys of an object are the names of columns, of which no two are equal.
fn has_names(columns: &[(Label, ColumnType)], members: &Map<String, Json>) -> bool
    ensures { result ≡ has_names columns.now (members_of members.now) }
{
    members.len() == columns.len() && has_columns(columns, members)
}

// Whether each column has a member under its name.
fn has_columns(columns: &[(Label, ColumnType)], members: &Map<String, Json>) -> bool
    ensures { result ≡ has_columns columns.now (members_of members.now) }
{
    for column in columns {
        if member_under(members, column.0.as_str()).is_none() {
            return false;
        }
    }
    true
}

// The cell of an object under a column, if its member is one.
fn member_cell<'j>(
    column: &(Label, ColumnType),
    members: &'j Map<String, Json>,
) -> Option<CellRef<'j>>
    ensures { Gives (cell_under column.now (members_of members.now)) column.now.1 result }
{
    cell_of(column.1, member_under(members, column.0.as_str())?)
}

// The cells of an object under columns. Their texts are lent from the object.
fn read_cells<'j>(
    alloc: Global,
    columns: &[(Label, ColumnType)],
    members: &'j Map<String, Json>,
    row: u64,
) -> Result<Vec<CellRef<'j>>, JsonTableFault>
    ensures ok { IfOk result (λ cells.
        cells_from row 1 columns.now (members_of members.now) ≡ Ok (map cell_seen cells.items)) }
    ensures fit { IfOk result (λ cells.
        RowFits (types_of columns.now) (map cell_seen cells.items)) }
    ensures sound { IfOk result (λ cells. All IsSound (map cell_seen cells.items)) }
    ensures err { IfErr result (λ e. e ≢ fault.Memory
        → cells_from row 1 columns.now (members_of members.now) ≡ Err e) }
{
    let mut cells = Vec::with_capacity(alloc, columns.len()).map_err(|_| Memory)?;
    for (at, column) in columns.iter().enumerate() {
        let Some(cell) = member_cell(column, members) else {
            return Err(JsonTableFault::BadCell {
                row,
                column: at as u64 + 1,
            });
        };
        cells.push(cell).map_err(|_| Memory)?;
    }
    Ok(cells)
}

// The row that a JSON value is. Its texts are lent from the JSON value.
#[tactic(auto, unfolding(crate::specs::Tables::row_at))]
fn read_row<'j>(
    alloc: Global,
    columns: &[(Label, ColumnType)],
    json: &'j Json,
    row: u64,
) -> Result<Vec<CellRef<'j>>, JsonTableFault>
    ensures ok { IfOk result (λ cells.
        row_at row columns.now (view json.now) ≡ Ok (map cell_seen cells.items)) }
    ensures fit { IfOk result (λ cells.
        RowFits (types_of columns.now) (map cell_seen cells.items)) }
    ensures sound { IfOk result (λ cells. All IsSound (map cell_seen cells.items)) }
    ensures err { IfErr result (λ e. e ≢ fault.Memory
        → row_at row columns.now (view json.now) ≡ Err e) }
{
    let Some(members) = json.as_object() else {
        return Err(JsonTableFault::BadRow { row });
    };
    if !has_names(columns, members) {
        return Err(JsonTableFault::BadRow { row });
    }
    read_cells(alloc, columns, members, row)
}

// The row that a JSON value is after earlier rows, which the index then knows too.
#[tactic(auto, unfolding(crate::specs::Tables::next_row))]
fn next_row<'j>(
    alloc: Global,
    shape: &TableShape,
    rows: &Rows,
    index: &mut KeyIndex,
    json: &'j Json,
    row: u64,
) -> Result<Vec<CellRef<'j>>, JsonTableFault>
    ensures ok { IfOk result (λ cells. KeepsIndex shape.now rows.now index.old
        → row ≡ length rows.now + 1
        → (next_row shape.now rows.now (view json.now) ≡ Ok (map cell_seen cells.items))
        × KeepsIndex shape.now (rows.now ++ map cell_seen cells.items ∷ []) index.new) }
    ensures table { IfOk result (λ cells. KeepsIndex shape.now rows.now index.old
        → IsTableOf shape.now rows.now
        → IsTableOf shape.now (rows.now ++ map cell_seen cells.items ∷ [])) }
    ensures err { IfErr result (λ e. KeepsIndex shape.now rows.now index.old
        → row ≡ length rows.now + 1
        → e ≢ fault.Memory → next_row shape.now rows.now (view json.now) ≡ Err e) }
{
    let cells = read_row(alloc, shape.columns.as_slice(), json, row)?;
    match earlier_twin(alloc, shape, rows, index, cells.as_slice())? {
        Some(earlier) => Err(JsonTableFault::TwiceKey { row, earlier }),
        None => Ok(cells),
    }
}

/// The rows that a JSON text gives a table of this shape. The text is an array of objects whose
/// keys are exactly the names of the columns. An int cell is an integer within 64 bits, with no
/// point and no exponent, and not `-0`; a bool cell is a truth value, and a text cell a string. A
/// key that an object has twice counts once, with its last value. Arrays and objects nest at most
/// 127 deep. Where the shape has a key, no two rows have equal key cells.
///
/// A fault is the first in reading order: the text, the array, then row by row the keys, the cells
/// in the order of the shape, and the key. `JsonTableFault::Memory` alone may come at any text.
pub fn read_json_table(
    alloc: Global,
    shape: &TableShape,
    text: &[u8],
) -> Result<Table, JsonTableFault>
    ensures rows { IfOk result (λ table. table_of shape.now text.now ≡ Ok table.rows) }
    ensures table { IfOk result (λ table. IsTableOf shape.now table.rows) }
    ensures fault { IfErr result (λ e. e ≢ fault.Memory → table_of shape.now text.now ≡ Err e) }
{
    let json = parse(alloc, text)?;
    let Some(items) = json.as_array() else {
        return Err(JsonTableFault::NotArray);
    };
    let mut index = KeyIndex::for_rows(alloc, shape, items.len())?;
    let mut rows = Rows::new(alloc);
    for (at, item) in items.iter().enumerate() {
        let cells = next_row(alloc, shape, &rows, &mut index, item, at as u64 + 1)?;
        rows.push_lent(cells.as_slice())?;
    }
    Ok(Table { rows })
}
