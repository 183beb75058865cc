// The cells of a record, and the names of columns.
ghost use Rattle.std.specs.Prelude.{◌≡◌, IfOk, drop};
ghost use Rattle.std.specs.Str.{is_utf8};
ghost use Rattle.csv.specs.Records.{fields_of};
ghost use Rattle.diagnostics.specs.Columns.{is_control};
ghost use Rattle.nq_model.specs.Tables.{names_of};
ghost use Rattle.table_explanations.specs.Explanations.{begins_with_name, first_other, record_of};
ghost use Rattle.table_explanations.specs.Lines.{is_shown, item, no_control};

use csv::ByteRecord;
use nq_model::{ColumnType, Label, Memory};
use std::alloc::Global;
use std::str;
use table_reader::record_at;

/// The record of a text with a number, or the empty one.
pub(crate) fn record_of(alloc: Global, text: &[u8], number: u64) -> Result<ByteRecord, Memory>
    ensures { IfOk result (λ cells. fields_of cells ≡ record_of text.now number) }
{
    match record_at(alloc, text, number)? {
        Some(cells) => Ok(cells),
        None => Ok(ByteRecord::new(alloc)),
    }
}

/// The cell of a record in a column, from 1, or the empty one.
#[tactic(auto, using(crate::proofs::CellFacts::field_slice))]
pub(crate) fn cell_of(cells: &ByteRecord, column: u64) -> &[u8]
    ensures { result.now ≡ item column (fields_of cells.now) }
{
    if column == 0 {
        return b"";
    }
    match cells.get((column - 1) as usize) {
        Some(cell) => cell,
        None => b"",
    }
}

/// The name of a column, from 1, or the empty one.
pub(crate) fn name_of(columns: &[(Label, ColumnType)], column: u64) -> &[u8]
    ensures { result.now ≡ item column (names_of columns.now) }
{
    if column == 0 {
        return b"";
    }
    match columns.get((column - 1) as usize) {
        Some(named) => named.0.as_str().as_bytes(),
        None => b"",
    }
}

// Whether the bytes are UTF-8.
fn is_utf8(bytes: &[u8]) -> bool
    ensures { result ≡ is_utf8 bytes.now }
{
    match str::from_utf8(bytes) {
        Ok(_) => true,
        Err(_) => false,
    }
}

// Whether a terminal might obey the byte.
fn is_control(byte: u8) -> bool
    ensures { result ≡ is_control byte }
{
    byte < 32 || byte == 127
}

// Whether it might obey none of them.
fn no_control(bytes: &[u8]) -> bool
    ensures { result ≡ no_control bytes.now }
{
    for byte in bytes {
        if is_control(*byte) {
            return false;
        }
    }
    true
}

/// Whether a cell is shown.
pub(crate) fn is_shown(cell: &[u8]) -> bool
    ensures { result ≡ is_shown cell.now }
{
    cell.len() <= 60 && no_control(cell) && is_utf8(cell)
}

// Whether this name is the cell at a place.
#[tactic(auto, using(crate::proofs::CellFacts::name_rules))]
fn has_name(cells: &ByteRecord, at: usize, name: &[u8]) -> bool
    ensures { result ≡ begins_with_name name.now (drop at (fields_of cells.now)) }
{
    match cells.get(at) {
        Some(cell) => name == cell,
        None => false,
    }
}

/// The number of the first column, from 1, at which a record is not the names of the columns.
pub(crate) fn first_other(columns: &[(Label, ColumnType)], cells: &ByteRecord) -> u64
    ensures { result ≡ first_other (names_of columns.now) (fields_of cells.now) }
{
    for at in 0..columns.len() {
        if !has_name(cells, at, columns[at].0.as_str().as_bytes()) {
            return at as u64 + 1;
        }
    }
    columns.len() as u64 + 1
}
