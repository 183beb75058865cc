// What comes of a text over four tables.
use nq_model::{ColumnType, Label, List, Memory, Schema, TableShape};
use sql_printer::print;
use sql_reader::read_sql;
use sql_scope::scope;
use std::alloc::{AllocError, Global};
use std::str;

const TABLES: [(&str, &[(&str, ColumnType)]); 4] = [
    ("departments", &[("name", ColumnType::Text)]),
    (
        "employees",
        &[
            ("dept", ColumnType::Text),
            ("name", ColumnType::Text),
            ("salary", ColumnType::Int),
        ],
    ),
    (
        "tasks",
        &[("employee", ColumnType::Text), ("task", ColumnType::Text)],
    ),
    (
        "contacts",
        &[
            ("dept", ColumnType::Text),
            ("name", ColumnType::Text),
            ("client", ColumnType::Bool),
        ],
    ),
];

fn shape(alloc: Global, name: &str, columns: &[(&str, ColumnType)]) -> Result<TableShape, Memory> {
    let mut made = List::new(alloc);
    for column in columns {
        made.push((Label::from_str(alloc, column.0)?, column.1))?;
    }
    Ok(TableShape {
        name: Label::from_str(alloc, name)?,
        columns: made,
        key: List::new(alloc),
    })
}

/// The schema of the four tables.
pub(crate) fn schema(alloc: Global) -> Result<Schema, Memory> {
    let mut tables = List::new(alloc);
    for (name, columns) in &TABLES {
        tables.push(shape(alloc, name, columns)?)?;
    }
    Ok(Schema { tables })
}

/// What is printed of a text that is read at this depth, and behind it the types of its columns; or its fault, or
/// the scope rule that it breaks.
pub(crate) fn shown(
    alloc: Global,
    schema: &Schema,
    text: &str,
    depth: u64,
) -> Result<String, Memory> {
    let tree = match read_sql(alloc, text.as_bytes(), depth) {
        Ok(tree) => tree,
        Err(fault) => return Ok(format!(in alloc; "{fault:?}")?),
    };
    let types = match scope(alloc, schema, &tree) {
        Ok(types) => types,
        Err(fault) => return Ok(format!(in alloc; "{fault:?}")?),
    };
    let printed = print(alloc, &tree)?;
    let mut shown = String::from_str(
        alloc,
        str::from_utf8(printed.as_slice()).unwrap_or("no text"),
    )?;
    for ty in types.as_slice() {
        write!(shown, " {ty:?}")?;
    }
    Ok(shown)
}

/// A text with the first piece, so many of the second, the third, so many of the fourth, and the last.
pub(crate) fn repeated(
    alloc: Global,
    pieces: (&str, &str, &str, &str, &str),
    count: usize,
) -> Result<String, AllocError> {
    let mut text = String::from_str(alloc, pieces.0)?;
    for _ in 0..count {
        text.push_str(pieces.1)?;
    }
    text.push_str(pieces.2)?;
    for _ in 0..count {
        text.push_str(pieces.3)?;
    }
    text.push_str(pieces.4)?;
    Ok(text)
}
