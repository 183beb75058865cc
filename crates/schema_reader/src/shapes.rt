// Makes a schema of written tables, or finds their first fault.
ghost use Rattle.std.specs.Prelude.{◌≡◌, [], map};
ghost use Rattle.nq_model.specs.SchemaTexts.{shape_of, schema_of};
ghost use Rattle.nq_model.specs.Tables.{names_of};
ghost use Rattle.schema_reader.specs.Shapes.{has, table_fault, column_fault, key_fault, placed, columns_fault, keys_fault, shape_fault, tables_fault};
ghost use Rattle.schema_reader.specs.Views.{name_view, column_view};
ghost use Rattle.schema_reader.specs.Reading.{table_view};
ghost use Rattle.schema_reader.specs.Answers.{Judges, Answers, pair_of};

use crate::fault::SchemaFault;
use crate::grammar::{Name, WrittenColumn};
use crate::written::WrittenTable;
use nq_model::{ColumnType, Label, List, Schema, TableShape};
use std::alloc::Global;

// How many tables a schema may have, how many columns a table, and how many bytes a name.
const LIMIT: usize = 64;

fn has_table(tables: &[TableShape], name: &str) -> bool
    ensures { result ≡ has (map (λ t. t.name) tables.now) name.now }
{
    for table in tables {
        if table.name.as_str() == name {
            return true;
        }
    }
    false
}

fn has_column(columns: &[(Label, ColumnType)], name: &str) -> bool
    ensures { result ≡ has (names_of columns.now) name.now }
{
    for column in columns {
        if column.0.as_str() == name {
            return true;
        }
    }
    false
}

fn has_label(labels: &[Label], name: &str) -> bool
    ensures { result ≡ has labels.now name.now }
{
    for label in labels {
        if label.as_str() == name {
            return true;
        }
    }
    false
}

// The name of a table, behind the tables before it.
fn judge_table(tables: &[TableShape], table: &WrittenTable) -> Result<(), SchemaFault>
    ensures { Judges result (placed table.now.name.place (table_fault (map
        (λ t. t.name) tables.now) (table_view table.now))) }
{
    let Name { place, text } = table.name;
    if has_table(tables, text) {
        return Err(SchemaFault::TwiceTable { place });
    }
    if table.columns.is_empty() {
        return Err(SchemaFault::NoColumn { place });
    }
    if tables.len() == LIMIT || text.len() > LIMIT {
        return Err(SchemaFault::OverLimit { place });
    }
    Ok(())
}

// The name of a column, behind the columns before it.
fn judge_column(columns: &[(Label, ColumnType)], column: &WrittenColumn) -> Result<(), SchemaFault>
    ensures { Judges result (placed column.now.name.place
        (column_fault (names_of columns.now) (column_view column.now))) }
{
    let Name { place, text } = column.name;
    if has_column(columns, text) {
        return Err(SchemaFault::TwiceColumn { place });
    }
    if columns.len() == LIMIT || text.len() > LIMIT {
        return Err(SchemaFault::OverLimit { place });
    }
    Ok(())
}

// A word of a key, behind the words before it.
fn judge_key(columns: &[(Label, ColumnType)], key: &[Label], name: &Name) -> Result<(), SchemaFault>
    ensures { Judges result (placed name.now.place
        (key_fault (names_of columns.now) key.now (name_view name.now))) }
{
    if has_column(columns, name.text) && !has_label(key, name.text) {
        return Ok(());
    }
    Err(SchemaFault::KeyColumn { place: name.place })
}

// The columns of a table.
fn columns_of(
    alloc: Global,
    written: &[WrittenColumn],
) -> Result<List<(Label, ColumnType)>, SchemaFault>
    ensures { Answers result (columns_fault [] (map column_view written.now))
        (map pair_of (map column_view written.now)) }
{
    let mut columns = List::new(alloc);
    for column in written {
        judge_column(columns.as_slice(), column)?;
        columns.push((Label::from_str(alloc, column.name.text)?, column.kind))?;
    }
    Ok(columns)
}

// The key of a table with these columns.
fn key_of(
    alloc: Global,
    columns: &[(Label, ColumnType)],
    written: &[Name],
) -> Result<List<Label>, SchemaFault>
    ensures { Answers result (keys_fault (names_of columns.now) [] (map name_view written.now)) (map
        (λ n. n.text) (map name_view written.now)) }
{
    let mut key = List::new(alloc);
    for name in written {
        judge_key(columns, key.as_slice(), name)?;
        key.push(Label::from_str(alloc, name.text)?)?;
    }
    Ok(key)
}

// A table, behind the tables before it.
fn shape(
    alloc: Global,
    tables: &[TableShape],
    table: &WrittenTable,
) -> Result<TableShape, SchemaFault>
    ensures { Answers result (shape_fault (map (λ t. t.name) tables.now) (table_view table.now))
        (shape_of (table_view table.now)) }
{
    judge_table(tables, table)?;
    let columns = columns_of(alloc, table.columns.as_slice())?;
    let key = key_of(alloc, columns.as_slice(), table.key.as_slice())?;
    let name = Label::from_str(alloc, table.name.text)?;
    Ok(TableShape { name, columns, key })
}

/// The schema of written tables. `Memory`, or the fault with the smallest place.
pub fn schema_of(alloc: Global, written: &[WrittenTable]) -> Result<Schema, SchemaFault>
    ensures { Answers result (tables_fault [] (map table_view written.now))
        (schema_of (map table_view written.now)) }
{
    let mut tables = List::new(alloc);
    for table in written {
        tables.push(shape(alloc, tables.as_slice(), table)?)?;
    }
    Ok(Schema { tables })
}
