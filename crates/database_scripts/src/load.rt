// The script that makes and fills the tables of a schema.
ghost use Rattle.std.specs.Prelude.{◌≡◌, ◌++◌, IfOk, OnOk};
ghost use Rattle.database_scripts.specs.Loads.{copied_text, filled_text, inserted_text, load_head, load_text, made_text, never_null, read_form, staged_text, tables_text, text_names};

use crate::columns::{Form, put_around, put_columns, put_listed};
use crate::database::Database;
use nq_model::{ColumnType, Label, List, Memory, Schema, TableShape};
use std::alloc::Global;

fn load_head(database: Database) -> &'static [u8]
    ensures { result.now ≡ load_head database }
{
    match database {
        Database::Postgres => b"\\set ON_ERROR_STOP on\n\\encoding UTF8\nBEGIN;\n",
        Database::Sqlite => b".bail on\nBEGIN;\n",
    }
}

// Puts the statement that makes a table.
#[tactic(auto, unfolding(crate::specs::Loads::made_text))]
fn put_made(text: &mut List<u8>, database: Database, shape: &TableShape) -> Result<(), Memory>
    ensures { OnOk result (text.new ≡ text.old ++ made_text database shape.now) }
{
    put_around(text, b"CREATE TABLE ", &shape.name, b" (\n  ")?;
    put_columns(
        text,
        Form::Made(database),
        b",\n  ",
        shape.columns.as_slice(),
    )?;
    put_listed(text, b",\n  PRIMARY KEY (", shape.key.as_slice())?;
    text.extend_from_slice(b"\n);\n")
}

// The names of the columns of texts.
fn text_names(alloc: Global, columns: &[(Label, ColumnType)]) -> Result<List<Label>, Memory>
    ensures { IfOk result (λ names. names ≡ text_names columns.now) }
{
    let mut names = List::new(alloc);
    for column in columns {
        if column.1 == ColumnType::Text {
            names.push(column.0.copy(alloc)?)?;
        }
    }
    Ok(names)
}

// The columns in which an empty cell is the empty text to PostgreSQL.
fn never_null(alloc: Global, columns: &[(Label, ColumnType)]) -> Result<List<Label>, Memory>
    ensures { IfOk result (λ names. names ≡ never_null columns.now) }
{
    if columns.len() == 1 {
        return Ok(List::new(alloc));
    }
    text_names(alloc, columns)
}

// Puts the line of psql that fills a table.
#[tactic(auto, unfolding(crate::specs::Loads::copied_text))]
fn put_copied(alloc: Global, text: &mut List<u8>, shape: &TableShape) -> Result<(), Memory>
    ensures { OnOk result (text.new ≡ text.old ++ copied_text shape.now) }
{
    let columns = shape.columns.as_slice();
    let names = never_null(alloc, columns)?;
    put_around(text, b"\\copy ", &shape.name, b" (")?;
    put_columns(text, Form::Named, b", ", columns)?;
    text.extend_from_slice(b") FROM '")?;
    text.extend_from_slice(shape.name.as_str().as_bytes())?;
    text.extend_from_slice(b".csv' WITH (FORMAT csv, HEADER true")?;
    put_listed(text, b", FORCE_NOT_NULL (", names.as_slice())?;
    text.extend_from_slice(b")\n")
}

// Puts what brings the cells of a file into SQLite.
#[tactic(auto, unfolding(crate::specs::Loads::staged_text))]
fn put_staged(text: &mut List<u8>, shape: &TableShape) -> Result<(), Memory>
    ensures { OnOk result (text.new ≡ text.old ++ staged_text shape.now) }
{
    text.extend_from_slice(b"CREATE TABLE \"cells of csv\" (")?;
    put_columns(text, Form::Staged, b", ", shape.columns.as_slice())?;
    text.extend_from_slice(b");\n.import --csv --skip 1 ")?;
    text.extend_from_slice(shape.name.as_str().as_bytes())?;
    text.extend_from_slice(b".csv \"cells of csv\"\n")
}

// How the cells of columns are read.
fn read_form(columns: &[(Label, ColumnType)]) -> Form
    ensures { result ≡ read_form columns.now }
{
    if columns.len() == 1 {
        Form::Only
    } else {
        Form::Read
    }
}

// Puts what puts these cells into their table.
#[tactic(auto, unfolding(crate::specs::Loads::inserted_text))]
fn put_inserted(text: &mut List<u8>, shape: &TableShape) -> Result<(), Memory>
    ensures { OnOk result (text.new ≡ text.old ++ inserted_text shape.now) }
{
    let columns = shape.columns.as_slice();
    put_around(text, b"INSERT INTO ", &shape.name, b" (")?;
    put_columns(text, Form::Named, b", ", columns)?;
    text.extend_from_slice(b") SELECT ")?;
    put_columns(text, read_form(columns), b", ", columns)?;
    text.extend_from_slice(b" FROM \"cells of csv\";\nDROP TABLE \"cells of csv\";\n")
}

// Puts what fills a table.
fn put_filled(
    alloc: Global,
    text: &mut List<u8>,
    database: Database,
    shape: &TableShape,
) -> Result<(), Memory>
    ensures { OnOk result (text.new ≡ text.old ++ filled_text database shape.now) }
{
    match database {
        Database::Postgres => put_copied(alloc, text, shape),
        Database::Sqlite => {
            put_staged(text, shape)?;
            put_inserted(text, shape)
        }
    }
}

// Puts what makes and fills tables.
fn put_tables(
    alloc: Global,
    text: &mut List<u8>,
    database: Database,
    shapes: &[TableShape],
) -> Result<(), Memory>
    ensures { OnOk result (text.new ≡ text.old ++ tables_text database shapes.now) }
{
    for shape in shapes {
        put_made(text, database, shape)?;
        put_filled(alloc, text, database, shape)?;
    }
    Ok(())
}

/// The script that makes the tables of a schema, with the types under which the texts of queries
/// mean what nq says, and fills each from the CSV file of its name, in the folder where the script
/// is run. It is one transaction, and ends at the first fault. Fails only if memory runs out.
#[tactic(auto, unfolding(crate::specs::Loads::load_text))]
pub fn load_script(alloc: Global, database: Database, schema: &Schema) -> Result<List<u8>, Memory>
    ensures { IfOk result (λ text. text ≡ load_text database schema.now) }
{
    let mut text = List::from_slice(alloc, load_head(database))?;
    put_tables(alloc, &mut text, database, schema.tables.as_slice())?;
    text.extend_from_slice(b"COMMIT;\n")?;
    Ok(text)
}
