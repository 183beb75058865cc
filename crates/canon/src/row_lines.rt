// The text of rows: a line for each, in the order of their cells.
ghost use Rattle.std.specs.Prelude.{◌≡◌, ◌++◌, All, IfOk, OnOk, string_bytes};
ghost use Rattle.std.specs.List.{flat_map};
ghost use Rattle.nq_model.specs.Cells.{RowFits};
ghost use Rattle.rows.specs.Places.{row_at, rows_at};
ghost use Rattle.canon.specs.RowTexts.{bar, row_line, rows_text};

use crate::pieces::write_cell;
use crate::sorted_rows::row_places;
use nq_model::{ColumnType, List, Memory};
use rows::Rows;
use std::alloc::Global;

// What stands before the cell under a column.
fn write_bar(text: &mut String, column: usize) -> Result<(), Memory>
    ensures { OnOk result (string_bytes text.new ≡ string_bytes text.old ++ bar column) }
{
    if column > 0 {
        text.push_str("|")?;
    }
    Ok(())
}

// The line of a row.
fn write_line(text: &mut String, rows: &Rows, row: usize) -> Result<(), Memory>
    ensures { OnOk result (string_bytes text.new
        ≡ string_bytes text.old ++ row_line (row_at rows.now row)) }
{
    for column in 0..rows.width(row) {
        write_bar(text, column)?;
        write_cell(text, &rows.cell(row, column))?;
    }
    text.push_str("\n")?;
    Ok(())
}

// The lines of the rows at these places, in their order.
fn write_lines(text: &mut String, rows: &Rows, places: &[u32]) -> Result<(), Memory>
    ensures { OnOk result (string_bytes text.new
        ≡ string_bytes text.old ++ flat_map row_line (rows_at rows.now places.now)) }
{
    for place in places {
        write_line(text, rows, *place as usize)?;
    }
    Ok(())
}

/// `rows K` and a line for each of the K rows, in the order of their cells from the left: the
/// canonical texts of its cells, with `|` between them. The types are those of the cells. Fails
/// only if memory runs out.
pub fn write_row_lines(alloc: Global, rows: &Rows, types: &[ColumnType]) -> Result<List<u8>, Memory>
    requires { All (RowFits types.now) rows.now }
    ensures { IfOk result (λ text. text ≡ rows_text rows.now) }
{
    let places = row_places(alloc, rows, types)?;
    let mut text = format!(in alloc; "rows {}\n", rows.len())?;
    write_lines(&mut text, rows, places.as_slice())?;
    Ok(List::from_vec(text.into_bytes()))
}
