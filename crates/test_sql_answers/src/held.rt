// The tables of an organisation, as a server holds them.
use nq_model::{List, Memory, Schema, TableShape};
use schema_reader::read_schema;
use sql_profile::Loaded;
use std::alloc::Global;
use table_reader::read_table;

// A schema, and the texts of its tables in order.
const SCHEMA: &[u8] = b"table departments (name: text);
table employees (dept: text, name: text, salary: int);
table tasks (employee: text, task: text);
table t (a: int);
table nothing (name: text);
table branches (dept: text);";

const TABLES: [&str; 6] = [
    "name\nProduct\nQuality\nResearch\nSales\n",
    "dept,name,salary\nProduct,Alex,20000\nProduct,Bert,900\nSales,Erik,2000000\n",
    "employee,task\nAlex,build\nBert,build\nErik,call\nErik,enthuse\n",
    "a\n5\n6\n",
    "name\n",
    "dept\nSales\nProduct\nSales\n",
];

fn loaded(alloc: Global, shape: &TableShape, text: &str) -> Result<Loaded, Memory> {
    let table = read_table(alloc, shape, text.as_bytes()).map_err(|_| Memory)?;
    let mut columns = List::new(alloc);
    for column in shape.columns.as_slice() {
        columns.push((column.0.copy(alloc)?, column.1))?;
    }
    Ok(Loaded {
        name: shape.name.copy(alloc)?,
        columns,
        rows: table.rows,
    })
}

/// The schema.
pub fn schema(alloc: Global) -> Result<Schema, Memory> {
    read_schema(alloc, SCHEMA).map_err(|_| Memory)
}

/// The tables.
pub fn organisation(alloc: Global) -> Result<Vec<Loaded>, Memory> {
    let schema = schema(alloc)?;
    let mut held = Vec::new(alloc);
    for (shape, text) in schema.tables.as_slice().iter().zip(TABLES.iter()) {
        held.push(loaded(alloc, shape, text)?)?;
    }
    Ok(held)
}
