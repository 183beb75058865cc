// The generated tables of small sizes, worked out by hand.
use generated_inputs::generated_tables;
use nq_model::{CellRef, Memory};
use rows::Rows;
use sql_profile::Loaded;
use std::alloc::Global;
use std::process::Abort;

// A size, and each table with its rows: a line for each, with a space before each cell.
const ROWS: [(u64, &str); 3] = [
    (
        1,
        "departments
 d0
employees
 d0 e0 0
 d0 e0 37
 d0 e0 74
tasks
 e0 t0
 e0 t1
 e0 t2
 e0 t3
",
    ),
    (
        2,
        "departments
 d0
 d0
employees
 d0 e0 0
 d0 e1 37
 d0 e0 74
 d0 e1 10
 d0 e0 47
 d0 e1 84
tasks
 e0 t0
 e1 t1
 e0 t2
 e1 t3
 e0 t4
 e1 t0
 e0 t1
 e1 t2
",
    ),
    (
        3,
        "departments
 d0
 d1
 d0
employees
 d0 e0 0
 d1 e1 37
 d0 e2 74
 d1 e0 10
 d0 e1 47
 d1 e2 84
 d0 e0 20
 d1 e1 57
 d0 e2 94
tasks
 e0 t0
 e1 t1
 e2 t2
 e0 t3
 e1 t4
 e2 t0
 e0 t1
 e1 t2
 e2 t3
 e0 t4
 e1 t0
 e2 t1
",
    ),
];

fn write_cell(text: &mut String, cell: CellRef<'_>) -> Result<(), Memory> {
    match cell {
        CellRef::Int(number) => write!(text, " {number}")?,
        CellRef::Bool(truth) => write!(text, " {truth}")?,
        CellRef::Text(name) => write!(text, " {name}")?,
    }
    Ok(())
}

fn write_rows(text: &mut String, rows: &Rows) -> Result<(), Memory> {
    for row in 0..rows.len() {
        for column in 0..rows.width(row) {
            write_cell(text, rows.cell(row, column))?;
        }
        text.push_str("\n")?;
    }
    Ok(())
}

fn written(alloc: Global, tables: &[Loaded]) -> Result<String, Memory> {
    let mut text = String::new(alloc);
    for table in tables {
        text.push_str(table.name.as_str())?;
        text.push_str("\n")?;
        write_rows(&mut text, &table.rows)?;
    }
    Ok(text)
}

fn check(rt: &impl Abort, alloc: Global, size: u64, want: &str) -> Result<(), Memory> {
    if size < 1 || size > 5000 {
        return Ok(());
    }
    let tables = generated_tables(alloc, size)?;
    assert_eq!(rt; written(alloc, tables.as_slice())?.as_str(), want);
    Ok(())
}

#[test]
fn makes_the_rows_of_a_size(rt: HostRuntime) -> Result<(), Memory> {
    for (size, want) in &ROWS {
        check(&rt, rt.alloc(), *size, want)?;
    }
    Ok(())
}
