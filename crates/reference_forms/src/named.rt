// Rows under the names of their columns, in tables under names.
ghost use Rattle.std.specs.Prelude.{◌≡◌, [], ◌++◌, zip, map, IfOk, OnOk, option_copied};
ghost use Rattle.std.specs.Option.{unwrap_or};
ghost use Rattle.nq_model.specs.Databases.{database};
ghost use Rattle.nq_model.specs.NamedRows.{cell_under, named, named_table, rows_named};
ghost use Rattle.nq_model.specs.Tables.{names_of};
ghost use Rattle.nq_ir.specs.Meanings.{row_of};
ghost use Rattle.rows.specs.Tables.{rows_of};

use nq_model::{Cell, ColumnType, Label, List, Memory, Schema};
use rows::{Rows, Table};
use std::alloc::Global;

/// A row: the name of each column with its cell.
pub type Row = List<(Label, Cell)>;

/// A table's name with its rows, in their order.
pub type NamedTable = (Label, List<Row>);

/// The number of a generator with the row at which it stands.
pub type Standing = (u64, Row);

// The cells of a row beside the names of the columns.
fn named_row(alloc: Global, columns: &[(Label, ColumnType)], cells: &[Cell]) -> Result<Row, Memory>
    ensures { IfOk result (λ row. row ≡ zip (names_of columns.now) cells.now) }
{
    let mut row = List::new(alloc);
    for at in 0..columns.len().min(cells.len()) {
        let name = columns[at].0.copy(alloc)?;
        let cell = cells[at].copy(alloc)?;
        row.push((name, cell))?;
    }
    Ok(row)
}

// Rows under the names of these columns.
fn named(alloc: Global, columns: &[(Label, ColumnType)], rows: &Rows) -> Result<List<Row>, Memory>
    ensures { IfOk result (λ all. all ≡ named (names_of columns.now) rows.now) }
{
    let mut all = List::with_capacity(alloc, rows.len())?;
    for at in 0..rows.len() {
        let cells = rows.row(alloc, at)?;
        all.push(named_row(alloc, columns, cells.as_slice())?)?;
    }
    Ok(all)
}

/// The tables of a schema by name, each with its rows under the names of their columns. Fails only
/// if memory runs out.
pub fn named_tables(
    alloc: Global,
    schema: &Schema,
    tables: &[Table],
) -> Result<List<NamedTable>, Memory>
    ensures { IfOk result (λ all.
        all ≡ map named_table (database schema.now.tables (rows_of tables.now))) }
{
    let shapes = schema.tables.as_slice();
    let mut all = List::new(alloc);
    for at in 0..shapes.len().min(tables.len()) {
        let name = shapes[at].name.copy(alloc)?;
        let rows = named(alloc, shapes[at].columns.as_slice(), &tables[at].rows)?;
        all.push((name, rows))?;
    }
    Ok(all)
}

/// The rows of the first table of that name, if there is one.
pub fn rows_named<'a>(tables: &'a [NamedTable], name: &str) -> Option<&'a List<Row>>
    ensures { unwrap_or (option_copied result) [] ≡ rows_named name.now tables.now }
{
    for table in tables {
        if name == table.0.as_str() {
            return Some(&table.1);
        }
    }
    None
}

// A copy of the cell of a row under a column; one that is not there counts as false.
fn cell_under(alloc: Global, row: &[(Label, Cell)], column: &str) -> Result<Cell, Memory>
    ensures { IfOk result (λ cell. cell ≡ cell_under column.now row.now) }
{
    for named in row {
        if column == named.0.as_str() {
            return named.1.copy(alloc);
        }
    }
    Ok(Cell::Bool(false))
}

/// A copy of the cell under a column of the row at which a generator stands; one that is not there
/// counts as false. Fails only if memory runs out.
pub fn cell_at(
    alloc: Global,
    env: &[Standing],
    generator: u64,
    column: &str,
) -> Result<Cell, Memory>
    ensures { IfOk result (λ cell. cell ≡ cell_under column.now (row_of generator env.now)) }
{
    for standing in env {
        if generator == standing.0 {
            return cell_under(alloc, standing.1.as_slice(), column);
        }
    }
    Ok(Cell::Bool(false))
}

/// A copy of a row. Fails only if memory runs out.
pub fn copy_row(alloc: Global, row: &[(Label, Cell)]) -> Result<Row, Memory>
    ensures { IfOk result (λ copy. copy ≡ row.now) }
{
    let mut copy = List::with_capacity(alloc, row.len())?;
    for named in row {
        copy.push((named.0.copy(alloc)?, named.1.copy(alloc)?))?;
    }
    Ok(copy)
}

/// Puts copies of rows behind those that are there. Fails only if memory runs out; some of the rows
/// may have been put then.
pub fn extend(alloc: Global, env: &mut List<Standing>, more: &[Standing]) -> Result<(), Memory>
    ensures { OnOk result (env.new ≡ env.old ++ more.now) }
{
    for standing in more {
        let row = copy_row(alloc, standing.1.as_slice())?;
        env.push((standing.0, row))?;
    }
    Ok(())
}

/// Copies of rows and then of more. Fails only if memory runs out.
pub fn joined(
    alloc: Global,
    first: &[Standing],
    more: &[Standing],
) -> Result<List<Standing>, Memory>
    ensures { IfOk result (λ all. all ≡ first.now ++ more.now) }
{
    let mut all = List::new(alloc);
    extend(alloc, &mut all, first)?;
    extend(alloc, &mut all, more)?;
    Ok(all)
}
