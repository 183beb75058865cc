// The schema: three tables without keys.
ghost use Rattle.std.specs.Prelude.{◌≡◌, IfOk, map};
ghost use Rattle.nq_model.specs.Tables.{IsProperSchema};
ghost use Rattle.generated_inputs.specs.Generated.{keyless, departments_shape, employees_shape, tasks_shape, generated_schema};

use nq_model::{ColumnType, Label, List, Memory, Schema, TableShape};
use std::alloc::Global;

// A table of these columns, without a key.
fn keyless(alloc: Global, name: &str, columns: &[(&str, ColumnType)]) -> Result<TableShape, Memory>
    ensures { IfOk result (λ shape.
        shape ≡ keyless name.now (map (λ column. (column.0.now, column.1)) columns.now)) }
{
    let mut named = List::with_capacity(alloc, columns.len())?;
    for column in columns {
        named.push((Label::from_str(alloc, column.0)?, column.1))?;
    }
    Ok(TableShape {
        name: Label::from_str(alloc, name)?,
        columns: named,
        key: List::new(alloc),
    })
}

/// The departments.
pub(crate) fn departments_shape(alloc: Global) -> Result<TableShape, Memory>
    ensures { IfOk result (λ shape. shape ≡ departments_shape) }
{
    keyless(alloc, "departments", &[("name", ColumnType::Text)])
}

/// The employees, each in a department.
pub(crate) fn employees_shape(alloc: Global) -> Result<TableShape, Memory>
    ensures { IfOk result (λ shape. shape ≡ employees_shape) }
{
    keyless(
        alloc,
        "employees",
        &[
            ("dept", ColumnType::Text),
            ("name", ColumnType::Text),
            ("salary", ColumnType::Int),
        ],
    )
}

/// The tasks, each of an employee.
pub(crate) fn tasks_shape(alloc: Global) -> Result<TableShape, Memory>
    ensures { IfOk result (λ shape. shape ≡ tasks_shape) }
{
    keyless(
        alloc,
        "tasks",
        &[("employee", ColumnType::Text), ("task", ColumnType::Text)],
    )
}

/// The schema, whatever the size.
#[tactic(auto, unfolding(crate::specs::Generated::generated_schema), using(crate::proofs::ProperSchema::proper))]
pub fn generated_schema(alloc: Global) -> Result<Schema, Memory>
    ensures is { IfOk result (λ schema. schema ≡ generated_schema) }
    ensures proper { IfOk result IsProperSchema }
{
    let mut tables = List::new(alloc);
    tables.push(departments_shape(alloc)?)?;
    tables.push(employees_shape(alloc)?)?;
    tables.push(tasks_shape(alloc)?)?;
    Ok(Schema { tables })
}
