// The rows of the tables.
ghost use Rattle.std.specs.Prelude.{◌≡◌, ◌*◌, IfOk};
ghost use Rattle.nq_model.specs.SchemaTables.{AreTablesOf};
ghost use Rattle.generated_inputs.specs.Sizes.{IsSize};
ghost use Rattle.generated_inputs.specs.Generated.{numbered, department_names, department_row, employee_row, task_row, rows_below, generated_schema, generated_rows, generated_tables};

use crate::schema::{departments_shape, employees_shape, tasks_shape};
use nq_model::{Cell, List, Memory, TableShape, Text};
use rows::Rows;
use sql_profile::Loaded;
use std::alloc::Global;

// A letter and a number.
fn numbered(alloc: Global, letter: &str, number: u64) -> Result<Cell, Memory>
    ensures { IfOk result (λ made. made ≡ numbered letter.now number) }
{
    let text = format!(in alloc; "{letter}{number}")?;
    Ok(Cell::Text(Text::from_string(text)))
}

// How many names the departments share.
fn department_names(size: u64) -> u64
    requires { IsSize size }
    ensures { result ≡ department_names size }
{
    (size + 1) / 2
}

// The departments, of which each name stands twice, but that of one where the size is odd.
fn departments(alloc: Global, size: u64) -> Result<Rows, Memory>
    requires { IsSize size }
    ensures { IfOk result (λ rows. rows ≡ rows_below (department_row size) size) }
{
    let names = department_names(size);
    let mut rows = Rows::new(alloc);
    for row in 0..size {
        rows.push(&[numbered(alloc, "d", row % names)?])?;
    }
    Ok(rows)
}

// The employees, three for each department.
fn employees(alloc: Global, size: u64) -> Result<Rows, Memory>
    requires { IsSize size }
    ensures { IfOk result (λ rows. rows ≡ rows_below (employee_row size) (3 * size)) }
{
    let names = department_names(size);
    let mut rows = Rows::new(alloc);
    for row in 0..3 * size {
        let department = numbered(alloc, "d", row % names)?;
        let name = numbered(alloc, "e", row % size)?;
        let salary = 37 * row % 101;
        rows.push(&[department, name, Cell::Int(salary as i64)])?;
    }
    Ok(rows)
}

// The tasks, four for each name of an employee.
fn tasks(alloc: Global, size: u64) -> Result<Rows, Memory>
    requires { IsSize size }
    ensures { IfOk result (λ rows. rows ≡ rows_below (task_row size) (4 * size)) }
{
    let mut rows = Rows::new(alloc);
    for row in 0..4 * size {
        let employee = numbered(alloc, "e", row % size)?;
        let task = numbered(alloc, "t", row % 5)?;
        rows.push(&[employee, task])?;
    }
    Ok(rows)
}

// A table of a shape with these rows.
fn loaded(shape: TableShape, rows: Rows) -> Loaded
    ensures name { result.name ≡ shape.name }
    ensures columns { result.columns ≡ shape.columns }
    ensures rows { result.rows ≡ rows }
{
    let TableShape {
        name,
        columns,
        key: _,
    } = shape;
    Loaded {
        name,
        columns,
        rows,
    }
}

// The tables, in the order of the schema.
#[tactic(auto, unfolding(crate::specs::Generated::generated_tables, crate::specs::Generated::generated_schema, crate::specs::Generated::generated_rows))]
fn in_schema_order(alloc: Global, size: u64) -> Result<List<Loaded>, Memory>
    requires { IsSize size }
    ensures { IfOk result (λ tables. tables ≡ generated_tables size) }
{
    let mut tables = List::new(alloc);
    tables.push(loaded(departments_shape(alloc)?, departments(alloc, size)?))?;
    tables.push(loaded(employees_shape(alloc)?, employees(alloc, size)?))?;
    tables.push(loaded(tasks_shape(alloc)?, tasks(alloc, size)?))?;
    Ok(tables)
}

/// The tables of a size, in the order of the schema, as a server is loaded with them. Fails only if
/// memory runs out.
pub fn generated_tables(alloc: Global, size: u64) -> Result<List<Loaded>, Memory>
    requires { IsSize size }
    ensures is { IfOk result (λ tables. tables ≡ generated_tables size) }
    ensures stored { AreTablesOf generated_schema.tables (generated_rows size) }
{
    in_schema_order(alloc, size)
}
