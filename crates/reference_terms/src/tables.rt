// What tables mean: bags of their rows as records.
ghost use Rattle.std.specs.Prelude.{◌≡◌, List, IfOk};
ghost use Rattle.nq_model.specs.Databases.{database, table_meaning};
ghost use Rattle.nq_model.specs.Tables.{names_of, row_record, table_value};
ghost use Rattle.nq_model.specs.Values.{nested};
ghost use Rattle.rows.specs.Tables.{rows_of};

use crate::cells::value_of;
use crate::records::put_field;
use nq_model::{Cell, ColumnType, Label, List, Memory, Schema, Value};
use rows::{Rows, Table};
use std::alloc::Global;

// A row as a record.
fn row_record(alloc: Global, columns: &[(Label, ColumnType)], row: &[Cell]) -> Result<Value, Memory>
    ensures { IfOk result (λ made. nested made ≡ row_record (names_of columns.now) row.now) }
{
    let mut fields = List::new(alloc);
    let mut place = columns.len().min(row.len());
    while place > 0 {
        place -= 1;
        let label = columns[place].0.copy(alloc)?;
        let cell = row[place].copy(alloc)?;
        fields = put_field(fields, label, value_of(cell))?;
    }
    Ok(Value::Rec(fields))
}

// The rows as records, in their order.
fn table_value(alloc: Global, columns: &[(Label, ColumnType)], rows: &Rows) -> Result<Value, Memory>
    ensures { IfOk result (λ bag. nested bag ≡ table_value columns.now rows.now) }
{
    let mut records = List::with_capacity(alloc, rows.len())?;
    for row in 0..rows.len() {
        let cells = rows.row(alloc, row)?;
        records.push(row_record(alloc, columns, cells.as_slice())?)?;
    }
    Ok(Value::Bag(records))
}

/// What `table name` means over the tables of a schema: the bag of the rows of the first table of
/// that name, as records, and an empty bag where there is none. Fails only if memory runs out.
pub fn table_meaning(
    alloc: Global,
    schema: &Schema,
    tables: &[Table],
    name: &str,
) -> Result<Value, Memory>
    ensures { IfOk result (λ bag.
        nested bag ≡ table_meaning (database schema.now.tables (rows_of tables.now)) name.now) }
{
    let shapes = schema.tables.as_slice();
    for place in 0..shapes.len().min(tables.len()) {
        if shapes[place].name.as_str() == name {
            return table_value(alloc, shapes[place].columns.as_slice(), &tables[place].rows);
        }
    }
    Ok(Value::Bag(List::new(alloc)))
}
