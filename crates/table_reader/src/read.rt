// The rows of a table text.
ghost use Rattle.std.specs.Prelude.{◌≡◌, ◌≢◌, ◌+◌, ℕ, List, [], ◌∷◌, ◌++◌, length, map, IfOk, IfErr};
ghost use Rattle.csv.specs.Records.{fields_of};
ghost use Rattle.nq_model.specs.CellRefs.{cell_seen};
ghost use Rattle.nq_model.specs.SchemaTables.{IsTableOf};
ghost use Rattle.row_keys.specs.FirstRows.{KeepsIndex};
ghost use Rattle.table_reader.specs.Records.{HasRead};
ghost use Rattle.table_reader.specs.Progress.{ReadsHeader};
ghost use Rattle.table_reader.specs.Tables.{is_header, next_row, table_of};
ghost use Rattle.table_reader.specs.declared.TableFault.TheVariants as fault;

use crate::TableFault;
use crate::cells::read_row;
use crate::records::{field_at, read_next, reader_of};
use csv::{ByteRecord, Reader};
use nq_model::{CellRef, Memory, TableShape};
use row_keys::{KeyIndex, earlier_twin};
use rows::{Rows, Table};
use std::alloc::Global;

// Whether a record is the names of the columns.
#[tactic(auto, using(crate::proofs::ReadFacts::header_rules))]
fn is_header(shape: &TableShape, fields: &ByteRecord) -> bool
    ensures { result ≡ is_header shape.now (fields_of fields.now) }
{
    if fields.len() != shape.columns.len() {
        return false;
    }
    for (at, column) in shape.columns.as_slice().iter().enumerate() {
        if field_at(fields, at) != column.0.as_str().as_bytes() {
            return false;
        }
    }
    true
}

// The row that a record spells after earlier ones, which the index then knows too. Its texts are
// lent from the record.
#[tactic(auto, unfolding(crate::specs::Tables::next_row))]
fn next_row<'f>(
    alloc: Global,
    shape: &TableShape,
    rows: &Rows,
    index: &mut KeyIndex,
    fields: &'f ByteRecord,
    row: u64,
) -> Result<Vec<CellRef<'f>>, TableFault>
    ensures ok { IfOk result (λ cells. KeepsIndex shape.now rows.now index.old
        → row ≡ length rows.now + 1
        → (next_row shape.now rows.now (fields_of fields.now) ≡ Ok (map cell_seen cells.items))
        × KeepsIndex shape.now (rows.now ++ map cell_seen cells.items ∷ []) index.new) }
    ensures err { IfErr result
        (λ e. KeepsIndex shape.now rows.now index.old → row ≡ length rows.now + 1
        → e ≢ fault.Memory → next_row shape.now rows.now (fields_of fields.now) ≡ Err e) }
{
    let cells = read_row(alloc, shape.columns.as_slice(), fields, row)?;
    match earlier_twin(alloc, shape, rows, index, cells.as_slice())? {
        Some(earlier) => Err(TableFault::TwiceKey { row, earlier }),
        None => Ok(cells),
    }
}

// Whether the first record of a text is the names of the columns.
fn read_header(
    shape: &TableShape,
    reader: &mut Reader<&[u8]>,
    fields: &mut ByteRecord,
) -> Result<bool, Memory>
    ensures { IfOk result (λ found. (text : List ℕ) → HasRead text reader.old []
        → ReadsHeader shape.now text found reader.new) }
{
    if !read_next(reader, fields)? {
        return Ok(false);
    }
    Ok(is_header(shape, fields))
}

/// The rows that a text gives a table of this shape. The text is CSV with commas and double quotes,
/// after a byte order mark if it begins with one. Its first record is the column names in the order
/// of the shape, and each further record is a row. An int cell is an optional minus sign and
/// digits, within 64 bits; a bool cell is `true`, `false`, `t` or `f`; a text cell is any UTF-8.
/// Where the shape has a key, no two rows have equal key cells.
///
/// A fault is the first in reading order: the header, then row by row the number of cells, the
/// cells from the left, and the key. `TableFault::Memory` alone may come at any text.
pub fn read_table(alloc: Global, shape: &TableShape, text: &[u8]) -> Result<Table, TableFault>
    ensures rows { IfOk result (λ table. table_of shape.now text.now ≡ Ok table.rows) }
    ensures table { IfOk result (λ table. IsTableOf shape.now table.rows) }
    ensures fault { IfErr result (λ e. e ≢ fault.Memory → table_of shape.now text.now ≡ Err e) }
{
    let mut reader = reader_of(alloc, text);
    let mut fields = ByteRecord::new(alloc);
    if !read_header(shape, &mut reader, &mut fields)? {
        return Err(TableFault::Header);
    }
    let mut index = KeyIndex::new(alloc, shape, text)?;
    let mut rows = Rows::new(alloc);
    for row in 1..u64::MAX {
        if !read_next(&mut reader, &mut fields)? {
            return Ok(Table { rows });
        }
        let cells = next_row(alloc, shape, &rows, &mut index, &fields, row)?;
        rows.push_lent(cells.as_slice())?;
    }
    // No memory holds so many rows.
    Err(TableFault::Memory)
}
