// Rows as JSON.
ghost use Rattle.std.specs.Prelude.{◌≡◌, IfOk, Some, map};
ghost use Rattle.std.specs.Str.{IsUtf8};
ghost use Rattle.nq_model.specs.CellRefs.{cell_seen};
ghost use Rattle.rows.specs.Places.{row_at, rows_at};
ghost use Rattle.serde_json.specs.Read.{read};
ghost use Rattle.serde_json.specs.View.{view};
ghost use Rattle.nq_json.specs.Json.{cell_json};
ghost use Rattle.nq_json.specs.Rows.{json_rows_text, row_json, rows_json};

use crate::form::write_line;
use nq_model::{CellRef, List, Memory};
use rows::Rows;
use serde_json::Value as Json;
use std::alloc::Global;

// An integer is a number, a truth value a truth value, a text a string.
fn cell_json(alloc: Global, cell: &CellRef<'_>) -> Result<Json, Memory>
    ensures { IfOk result (λ made. view made ≡ cell_json (cell_seen cell.now)) }
{
    match cell {
        CellRef::Int(number) => Ok(Json::from(*number)),
        CellRef::Bool(truth) => Ok(Json::from(*truth)),
        CellRef::Text(text) => Ok(Json::try_from_str(alloc, text)?),
    }
}

// The array of the cells of a row.
fn row_json(alloc: Global, rows: &Rows, row: usize) -> Result<Json, Memory>
    ensures { IfOk result (λ made. view made ≡ row_json (row_at rows.now row)) }
{
    let mut cells = Vec::with_capacity(alloc, rows.width(row))?;
    for column in 0..rows.width(row) {
        cells.push(cell_json(alloc, &rows.cell(row, column))?)?;
    }
    Ok(Json::from(cells))
}

// The array of the rows at these places, in their order.
fn rows_json(alloc: Global, rows: &Rows, places: &[u32]) -> Result<Json, Memory>
    ensures { IfOk result (λ made. view made ≡ rows_json (rows_at rows.now places.now)) }
{
    let mut arrays = Vec::with_capacity(alloc, places.len())?;
    for place in places {
        arrays.push(row_json(alloc, rows, *place as usize)?)?;
    }
    Ok(Json::from(arrays))
}

/// The rows at these places, in their order, as one line of JSON: the compact text of an array of
/// arrays of cells, in which an integer is a number, a truth value a truth value and a text a
/// string, and a newline. A place past the last row stands for an empty row. Fails only if memory
/// runs out.
pub fn write_json_rows(alloc: Global, rows: &Rows, places: &[u32]) -> Result<List<u8>, Memory>
    ensures text { IfOk result
        (λ text. text ≡ json_rows_text (rows_at rows.now places.now)) }
    ensures utf8 { IfOk result (λ text. IsUtf8 text) }
    ensures reads_back { IfOk result
        (λ text. read text ≡ Some (rows_json (rows_at rows.now places.now))) }
{
    let form = rows_json(alloc, rows, places)?;
    let text = write_line(alloc, &form)?;
    Ok(text)
}
