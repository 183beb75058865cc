// How long texts are, so that one buffer is asked for once and does not move while it grows. Were a
// size too small, as where many quotes are doubled or rows stand in several bags, the text would
// grow all the same.
use crate::heading::Heading;
use crate::part::Part;
use nq_model::{CellRef, Memory};
use rows::Rows;
use std::alloc::Global;

// The longest text of an integer or a truth value: `-9223372036854775808`.
const NUMBER_SIZE: usize = 20;

// How many bytes a cell is written with, if no quote is doubled.
fn cell_size(cell: &CellRef<'_>) -> usize {
    match cell {
        CellRef::Int(_) | CellRef::Bool(_) => NUMBER_SIZE,
        CellRef::Text(text) => text.len().saturating_add(2),
    }
}

// How many bytes the cells of a column are written with.
fn column_size(rows: &Rows, column: usize) -> usize {
    let mut size = 0usize;
    for row in 0..rows.len() {
        if column < rows.width(row) {
            size = size.saturating_add(cell_size(&rows.cell(row, column)));
        }
    }
    size
}

// How many bytes stand round the cells of each element, of which the columns are put at the end:
// `, ` behind it, labels, ` = `, `, `, parentheses and braces.
#[cycle(size)]
fn size_around(part: &Part, columns: &mut Vec<usize>) -> Result<usize, Memory> {
    match part {
        Part::Cell(column) => {
            columns.push(*column)?;
            Ok(2)
        }
        Part::Record(fields) => size_around_fields(fields.as_slice(), columns),
        Part::Bag(_, _, _) => Ok(4),
    }
}

#[cycle(size)]
fn size_around_fields(
    fields: &[(Heading, Part)],
    columns: &mut Vec<usize>,
) -> Result<usize, Memory> {
    let mut size = 4usize;
    for field in fields {
        let value = size_around(&field.1, columns)?;
        size = size.saturating_add(field.0.len()).saturating_add(value);
    }
    Ok(size)
}

// How many bytes the elements that the rows are are written with, without what stands in their
// bags.
fn elements_size(alloc: Global, element: &Part, rows: &Rows) -> Result<usize, Memory> {
    let mut columns = Vec::new(alloc);
    let around = size_around(element, &mut columns)?;
    let mut size = around.saturating_mul(rows.len());
    for column in &columns {
        size = size.saturating_add(column_size(rows, *column));
    }
    Ok(size)
}

// How many bytes the elements of the bags in a part are written with.
#[cycle(bags)]
fn bags_size(alloc: Global, part: &Part) -> Result<usize, Memory> {
    match part {
        Part::Cell(_) => Ok(0),
        Part::Record(fields) => fields_size(alloc, fields.as_slice()),
        Part::Bag(_, groups, element) => rows_size(alloc, element, &groups.rows),
    }
}

#[cycle(bags)]
fn fields_size(alloc: Global, fields: &[(Heading, Part)]) -> Result<usize, Memory> {
    let mut size = 0usize;
    for field in fields {
        size = size.saturating_add(bags_size(alloc, &field.1)?);
    }
    Ok(size)
}

/// How many bytes the elements that the rows are are written with, if each stands in one bag.
#[cycle(bags)]
pub(crate) fn rows_size(alloc: Global, element: &Part, rows: &Rows) -> Result<usize, Memory> {
    let own = elements_size(alloc, element, rows)?;
    let inner = bags_size(alloc, element)?;
    Ok(own.saturating_add(inner))
}
