// Tables whose rows have their numbers in a column more.
ghost use Rattle.std.specs.Prelude.{◌≡◌, ◌<◌, ◌^◌, ◌++◌, [], ◌∷◌, IfOk, IsTrue, length, map};
ghost use Rattle.std.specs.Prelude.{pos, slice_index_or};
ghost use Rattle.nq_model.specs.CellRefs.{cell_seen};
ghost use Rattle.nq_model.specs.declared.table.Cell.TheVariants as cell;
ghost use Rattle.traced_meaning.specs.NumberedTables.{numbered_rows};
ghost use Rattle.lineage_compile.specs.Tables.{HaveFewRows, numbered_columns, numbered_table};
ghost use Rattle.lineage_compile.specs.Tables.{with_numbers};

use nq_model::{CellRef, ColumnType, Label, List, Memory};
use rows::Rows;
use sql_profile::Loaded;
use std::alloc::Global;

/// The greatest number that a row can have.
const NUMBERS: u64 = 9_223_372_036_854_775_807;

/// The name of the column for the number of a row.
const NUMBER: &str = "#";

// The cells of a row, lent to be read, with its number behind them.
fn numbered_row<'a>(
    alloc: Global,
    rows: &'a Rows,
    row: usize,
    number: u64,
) -> Result<Vec<CellRef<'a>>, Memory>
    ensures { IfOk result (λ lent. map cell_seen lent.items
        ≡ slice_index_or rows.now row [] ++ cell.Int (pos number) ∷ []) }
{
    let Ok(number) = i64::try_from(number) else {
        return Err(Memory);
    };
    let mut lent = Vec::new(alloc);
    for column in 0..rows.width(row) {
        lent.push(rows.cell(row, column))?;
    }
    lent.push(CellRef::Int(number))?;
    Ok(lent)
}

// The rows, each with its number behind its cells, from 1.
fn numbered_rows(alloc: Global, rows: &Rows) -> Result<Rows, Memory>
    ensures { IfOk result (λ made. made ≡ numbered_rows rows.now) }
{
    let mut made = Rows::new(alloc);
    for row in 0..rows.len() {
        let lent = numbered_row(alloc, rows, row, row as u64 + 1)?;
        made.push_lent(lent.as_slice())?;
    }
    Ok(made)
}

// Columns, with that of numbers behind them.
fn numbered_columns(
    alloc: Global,
    columns: &[(Label, ColumnType)],
) -> Result<List<(Label, ColumnType)>, Memory>
    ensures { IfOk result (λ made. made ≡ numbered_columns columns.now) }
{
    let mut made = List::new(alloc);
    for column in columns {
        made.push((column.0.copy(alloc)?, column.1))?;
    }
    made.push((Label::from_str(alloc, NUMBER)?, ColumnType::Int))?;
    Ok(made)
}

// Whether there are numbers for all rows.
fn has_numbers(rows: &Rows) -> bool
    ensures { IsTrue result → length rows.now < 2 ^ 63 }
{
    rows.len() as u64 <= NUMBERS
}

// A table with the numbers of its rows. No memory holds more rows than there are numbers.
fn numbered_table(alloc: Global, table: &Loaded) -> Result<Loaded, Memory>
    ensures is { IfOk result (λ made. made ≡ numbered_table table.now) }
    ensures few { IfOk result (λ made. length table.now.rows < 2 ^ 63) }
{
    if !has_numbers(&table.rows) {
        return Err(Memory);
    }
    Ok(Loaded {
        name: table.name.copy(alloc)?,
        columns: numbered_columns(alloc, table.columns.as_slice())?,
        rows: numbered_rows(alloc, &table.rows)?,
    })
}

/// The tables with a last column more, named `#`, in which each row has its number, from 1. None of
/// them has as many as 2^63 rows. Fails only if memory runs out.
pub fn number_tables(alloc: Global, tables: &[Loaded]) -> Result<List<Loaded>, Memory>
    ensures are { IfOk result (λ made. made ≡ with_numbers tables.now) }
    ensures few { IfOk result (λ made. HaveFewRows tables.now) }
{
    let mut made = List::with_capacity(alloc, tables.len())?;
    for table in tables {
        made.push(numbered_table(alloc, table)?)?;
    }
    Ok(made)
}
