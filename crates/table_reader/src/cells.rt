// The cells that fields spell, and the rows that records spell. Their texts are lent from the
// records.
ghost use Rattle.std.specs.Prelude.{◌≡◌, ◌≢◌, ◌↔◌, IsTrue, IfOk, IfErr, MatchOption, true, false, map, slice_index};
ghost use Rattle.std.specs.Str.{is_utf8};
ghost use Rattle.csv.specs.Records.{fields_of};
ghost use Rattle.nq_model.specs.CellRefs.{cell_seen};
ghost use Rattle.nq_model.specs.Tables.{types_of};
ghost use Rattle.table_reader.specs.Spelling.{int_of, bool_of, cell_at, row_at};
ghost use Rattle.table_reader.specs.declared.TableFault.TheVariants as fault;

use crate::TableFault;
use crate::records::field_at;
use csv::ByteRecord;
use nq_model::{CellRef, ColumnType, Label, Memory};
use std::alloc::Global;
use std::str;

// The text that bytes are, if they are UTF-8.
#[tactic(auto, using(crate::proofs::CellFacts::cell_rules))]
fn utf8_of(bytes: &[u8]) -> Option<&str>
    ensures { MatchOption result (is_utf8 bytes.now ≡ false)
        (λ text. (text.now ≡ bytes.now) × (is_utf8 bytes.now ≡ true)) }
{
    match str::from_utf8(bytes) {
        Ok(text) => Some(text),
        Err(_) => None,
    }
}

fn starts_with_plus(text: &[u8]) -> bool
    ensures { IsTrue result ↔ (slice_index text.now 0 ≡ 43) }
{
    !text.is_empty() && text[0] == b'+'
}

// The number that an optional minus sign and digits spell. `parse` takes a plus sign too.
#[tactic(auto, using(crate::proofs::Parses::int_rules))]
fn int_of(text: &str) -> Option<i64>
    ensures { result ≡ int_of text.now }
{
    if starts_with_plus(text.as_bytes()) {
        return None;
    }
    text.parse::<i64>().ok()
}

// The truth value that a word spells.
#[tactic(auto, unfolding(crate::specs::Spelling::bool_of))]
fn bool_of(text: &str) -> Option<bool>
    ensures { result ≡ bool_of text.now }
{
    match text {
        "true" | "t" => Some(true),
        "false" | "f" => Some(false),
        _ => None,
    }
}

// The cell that the field at a row and a column spells.
#[tactic(auto, unfolding(crate::specs::Spelling::cell_at))]
fn read_cell<'f>(
    row: u64,
    column: u64,
    column_type: ColumnType,
    field: &'f [u8],
) -> Result<CellRef<'f>, TableFault>
    ensures ok { IfOk result (λ cell.
        cell_at row column column_type field.now ≡ Ok (cell_seen cell)) }
    ensures err { IfErr result
        (λ e. e ≢ fault.Memory → cell_at row column column_type field.now ≡ Err e) }
{
    let Some(text) = utf8_of(field) else {
        return Err(TableFault::NotUtf8 { row, column });
    };
    match column_type {
        ColumnType::Int => match int_of(text) {
            Some(number) => Ok(CellRef::Int(number)),
            None => Err(TableFault::BadInt { row, column }),
        },
        ColumnType::Bool => match bool_of(text) {
            Some(truth) => Ok(CellRef::Bool(truth)),
            None => Err(TableFault::BadBool { row, column }),
        },
        ColumnType::Text => Ok(CellRef::Text(text)),
    }
}

// The row that a record spells.
#[tactic(auto, unfolding(crate::specs::Spelling::row_at))]
pub(crate) fn read_row<'f>(
    alloc: Global,
    columns: &[(Label, ColumnType)],
    fields: &'f ByteRecord,
    row: u64,
) -> Result<Vec<CellRef<'f>>, TableFault>
    ensures ok { IfOk result (λ cells.
        row_at row (types_of columns.now) (fields_of fields.now) ≡ Ok (map cell_seen cells.items)) }
    ensures err { IfErr result
        (λ e. e ≢ fault.Memory → row_at row (types_of columns.now) (fields_of fields.now) ≡ Err e) }
{
    if fields.len() != columns.len() {
        return Err(TableFault::Width { row });
    }
    let mut cells = Vec::with_capacity(alloc, columns.len()).map_err(|_| Memory)?;
    for (at, column) in columns.iter().enumerate() {
        let field = field_at(fields, at);
        let cell = read_cell(row, at as u64 + 1, column.1, field)?;
        cells.push(cell).map_err(|_| Memory)?;
    }
    Ok(cells)
}
