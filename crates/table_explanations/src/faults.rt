// The explanation of each fault.
ghost use Rattle.std.specs.Prelude.{◌≡◌, ◌++◌, IfOk, OnOk};
ghost use Rattle.csv.specs.Records.{fields_of};
ghost use Rattle.nq_model.specs.Tables.{names_of};
ghost use Rattle.table_explanations.specs.Explanations.{ExplainsTable, cell_head, cell_text};
ghost use Rattle.table_explanations.specs.Explanations.{comma_line, earlier_line, found_line};
ghost use Rattle.table_explanations.specs.Explanations.{header_lines, header_text, other_text};
ghost use Rattle.table_explanations.specs.Explanations.{record_of, row_head, shown_column};
ghost use Rattle.table_explanations.specs.Explanations.{twice_text, width_lines, width_text};

use crate::cells::{cell_of, first_other, name_of, record_of};
use crate::lines::{put_cell, put_labels, put_line, put_names, put_number};
use crate::places::cell_place;
use crate::sentences::{Wrong, sentence};
use csv::ByteRecord;
use diagnostics::{excerpt, place_in};
use nq_model::{ColumnType, Label, List, Memory, TableShape};
use std::alloc::Global;
use table_reader::TableFault;

// What is wrong with a cell, its row and its column.
#[tactic(auto, unfolding(crate::specs::Explanations::cell_head))]
fn cell_head(
    alloc: Global,
    file: &[u8],
    text: &[u8],
    shape: &TableShape,
    wrong: Wrong,
    row: u64,
    column: u64,
) -> Result<List<u8>, Memory>
    ensures { IfOk result
        (λ made. made ≡ cell_head wrong file.now text.now shape.now row column) }
{
    let place = cell_place(text, row, column);
    let mut made = excerpt(alloc, file, text, place, sentence(wrong))?;
    put_number(alloc, &mut made, "row", row)?;
    put_line(
        &mut made,
        "column",
        name_of(shape.columns.as_slice(), column),
    )?;
    Ok(made)
}

// The same, and the cell.
#[tactic(auto, unfolding(crate::specs::Explanations::cell_text))]
fn explain_cell(
    alloc: Global,
    file: &[u8],
    text: &[u8],
    shape: &TableShape,
    wrong: Wrong,
    row: u64,
    column: u64,
) -> Result<List<u8>, Memory>
    ensures { IfOk result
        (λ made. made ≡ cell_text wrong file.now text.now shape.now row column) }
{
    let cells = record_of(alloc, text, row)?;
    let mut made = cell_head(alloc, file, text, shape, wrong, row, column)?;
    put_cell(&mut made, "cell", cell_of(&cells, column))?;
    Ok(made)
}

// What is wrong with a row, and which it is.
#[tactic(auto, unfolding(crate::specs::Explanations::row_head))]
fn row_head(
    alloc: Global,
    file: &[u8],
    text: &[u8],
    wrong: Wrong,
    row: u64,
) -> Result<List<u8>, Memory>
    ensures { IfOk result (λ made. made ≡ row_head wrong file.now text.now row) }
{
    let place = cell_place(text, row, 1);
    let mut made = excerpt(alloc, file, text, place, sentence(wrong))?;
    put_number(alloc, &mut made, "row", row)?;
    Ok(made)
}

// Puts what mostly makes too many cells.
fn put_comma(text: &mut List<u8>, columns: u64, cells: u64) -> Result<(), Memory>
    ensures { OnOk result (text.new ≡ text.old ++ comma_line columns cells) }
{
    if columns < cells {
        text.extend_from_slice(b"A cell with a comma in it stands in double quotes.\n")
    } else {
        Ok(())
    }
}

// Puts how many columns there are, and how many cells.
#[tactic(auto, unfolding(crate::specs::Explanations::width_lines))]
fn put_widths(alloc: Global, text: &mut List<u8>, columns: u64, cells: u64) -> Result<(), Memory>
    ensures { OnOk result (text.new ≡ text.old ++ width_lines columns cells) }
{
    put_number(alloc, text, "columns", columns)?;
    put_number(alloc, text, "cells", cells)?;
    put_comma(text, columns, cells)
}

// A row with another number of cells.
#[tactic(auto, unfolding(crate::specs::Explanations::width_text))]
fn explain_width(
    alloc: Global,
    file: &[u8],
    text: &[u8],
    shape: &TableShape,
    row: u64,
) -> Result<List<u8>, Memory>
    ensures { IfOk result (λ made. made ≡ width_text file.now text.now shape.now row) }
{
    let cells = record_of(alloc, text, row)?;
    let mut made = row_head(alloc, file, text, Wrong::Width, row)?;
    let columns = shape.columns.len() as u64;
    put_widths(alloc, &mut made, columns, cells.len() as u64)?;
    Ok(made)
}

// Puts which earlier row has the key, and its line.
#[tactic(auto, unfolding(crate::specs::Explanations::earlier_line))]
fn put_earlier(alloc: Global, made: &mut List<u8>, text: &[u8], earlier: u64) -> Result<(), Memory>
    ensures { OnOk result (made.new ≡ made.old ++ earlier_line text.now earlier) }
{
    let place = place_in(text, cell_place(text, earlier, 1));
    let row = earlier.to_string(alloc)?;
    let line = place.line.to_string(alloc)?;
    made.extend_from_slice(b"earlier: ")?;
    made.extend_from_slice(row.as_bytes())?;
    made.extend_from_slice(b", in line ")?;
    made.extend_from_slice(line.as_bytes())?;
    made.extend_from_slice(b"\n")
}

// A row with the key of an earlier one.
#[tactic(auto, unfolding(crate::specs::Explanations::twice_text))]
fn explain_twice(
    alloc: Global,
    file: &[u8],
    text: &[u8],
    shape: &TableShape,
    row: u64,
    earlier: u64,
) -> Result<List<u8>, Memory>
    ensures { IfOk result (λ made. made ≡ twice_text file.now text.now shape.now row earlier) }
{
    let mut made = row_head(alloc, file, text, Wrong::TwiceKey, row)?;
    put_earlier(alloc, &mut made, text, earlier)?;
    put_labels(alloc, &mut made, "key", shape.key.as_slice())?;
    Ok(made)
}

// The column of the place, where so many cells are not the names from this column on.
fn shown_column(count: u64, column: u64) -> u64
    ensures { result ≡ shown_column count column }
{
    if count < column { 1 } else { column }
}

// Puts what stands in a column of the header.
fn put_found(text: &mut List<u8>, cells: &ByteRecord, column: u64) -> Result<(), Memory>
    ensures { OnOk result (text.new ≡ text.old ++ found_line (fields_of cells.now) column) }
{
    if (cells.len() as u64) < column {
        put_line(text, "found", b"nothing")
    } else {
        put_cell(text, "found", cell_of(cells, column))
    }
}

// Puts what the header should be, and where it is not.
#[tactic(auto, unfolding(crate::specs::Explanations::header_lines))]
fn put_header(
    alloc: Global,
    text: &mut List<u8>,
    columns: &[(Label, ColumnType)],
    cells: &ByteRecord,
    column: u64,
) -> Result<(), Memory>
    ensures { OnOk result (text.new
        ≡ text.old ++ header_lines (names_of columns.now) (fields_of cells.now) column) }
{
    put_names(alloc, text, "expected", columns)?;
    put_number(alloc, text, "column", column)?;
    put_found(text, cells, column)
}

// A header that is not the names of the columns, from this one on.
#[tactic(auto, unfolding(crate::specs::Explanations::other_text))]
fn explain_other(
    alloc: Global,
    file: &[u8],
    text: &[u8],
    columns: &[(Label, ColumnType)],
    cells: &ByteRecord,
    column: u64,
) -> Result<List<u8>, Memory>
    ensures { IfOk result (λ made. made ≡ other_text file.now text.now (names_of columns.now)
        (fields_of cells.now) column) }
{
    let place = cell_place(text, 0, shown_column(cells.len() as u64, column));
    let mut made = excerpt(alloc, file, text, place, sentence(Wrong::Header))?;
    put_header(alloc, &mut made, columns, cells, column)?;
    Ok(made)
}

// A header that is not the names of the columns.
#[tactic(auto, unfolding(crate::specs::Explanations::header_text))]
fn explain_header(
    alloc: Global,
    file: &[u8],
    text: &[u8],
    columns: &[(Label, ColumnType)],
) -> Result<List<u8>, Memory>
    ensures { IfOk result (λ made. made ≡ header_text file.now text.now (names_of columns.now)
        (record_of text.now 0)) }
{
    let cells = record_of(alloc, text, 0)?;
    let column = first_other(columns, &cells);
    explain_other(alloc, file, text, columns, &cells, column)
}

/// The explanation of a fault of a text, which is in a file of this name and is to be that of a
/// table of this shape: its place with a caret under it, and lines that tell the row, the name of
/// the column and what stands there. Fails only if memory runs out, or if the fault is that it did.
pub fn explain_table(
    alloc: Global,
    file: &[u8],
    text: &[u8],
    shape: &TableShape,
    fault: &TableFault,
) -> Result<List<u8>, Memory>
    ensures { IfOk result (ExplainsTable file.now text.now shape.now fault.now) }
{
    match *fault {
        TableFault::Memory => Err(Memory),
        TableFault::Header => explain_header(alloc, file, text, shape.columns.as_slice()),
        TableFault::Width { row } => explain_width(alloc, file, text, shape, row),
        TableFault::NotUtf8 { row, column } => {
            cell_head(alloc, file, text, shape, Wrong::NotUtf8, row, column)
        }
        TableFault::BadInt { row, column } => {
            explain_cell(alloc, file, text, shape, Wrong::NoInt, row, column)
        }
        TableFault::BadBool { row, column } => {
            explain_cell(alloc, file, text, shape, Wrong::NoBool, row, column)
        }
        TableFault::TwiceKey { row, earlier } => {
            explain_twice(alloc, file, text, shape, row, earlier)
        }
    }
}
