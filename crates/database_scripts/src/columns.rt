// Lists of names and of columns.
ghost use Rattle.std.specs.Prelude.{◌≡◌, ◌++◌, IfOk, OnOk};
ghost use Rattle.sql_profile.specs.Printed.{quoted};
ghost use Rattle.database_scripts.specs.Columns.{around, column_text, columns_from, columns_text, constraint, listed, more_columns, more_names, only_cell, read_cell, written_cell};

use crate::database::Database;
use nq_model::{ColumnType, Label, List, Memory};
use query_json::column_name;
use std::alloc::Global;

/// What is written of each column of a list.
#[derive(Clone, Copy, Debug, PartialEq, Eq)]
pub(crate) enum Form {
    /// Its name as it is.
    Bare,
    /// Its name in double quotes.
    Named,
    /// Its name, its type and what its cells have to be, in a table of a database.
    Made(Database),
    /// Its name and the type of texts.
    Staged,
    /// Its cell, from a cell of CSV.
    Read,
    /// The same, where there is no other column.
    Only,
    /// Its cell, as a cell of CSV.
    Written,
}

/// Puts the name in double quotes.
pub(crate) fn put_name(text: &mut List<u8>, name: &Label) -> Result<(), Memory>
    ensures { OnOk result (text.new ≡ text.old ++ quoted name.now) }
{
    text.extend_from_slice(b"\"")?;
    text.extend_from_slice(name.as_str().as_bytes())?;
    text.extend_from_slice(b"\"")
}

// Puts each name behind a comma.
fn put_more_names(text: &mut List<u8>, names: &[Label]) -> Result<(), Memory>
    ensures { OnOk result (text.new ≡ text.old ++ more_names names.now) }
{
    for name in names {
        text.extend_from_slice(b", ")?;
        put_name(text, name)?;
    }
    Ok(())
}

/// Puts what names are listed for, the names, and `)`, if there is a name.
#[tactic(auto, unfolding(crate::specs::Columns::listed))]
pub(crate) fn put_listed(text: &mut List<u8>, head: &[u8], names: &[Label]) -> Result<(), Memory>
    ensures { OnOk result (text.new ≡ text.old ++ listed head.now names.now) }
{
    let Some((first, rest)) = names.split_first() else {
        return Ok(());
    };
    text.extend_from_slice(head)?;
    put_name(text, first)?;
    put_more_names(text, rest)?;
    text.extend_from_slice(b")")
}

// Puts what a column of a database's table is: its type, and a condition where that is not enough.
fn put_constraint(
    text: &mut List<u8>,
    database: Database,
    name: &Label,
    ty: ColumnType,
) -> Result<(), Memory>
    ensures { OnOk result (text.new ≡ text.old ++ constraint database name.now ty) }
{
    match (database, ty) {
        (Database::Postgres, ColumnType::Int) => text.extend_from_slice(b" bigint NOT NULL"),
        (Database::Postgres, ColumnType::Bool) => text.extend_from_slice(b" boolean NOT NULL"),
        (Database::Postgres, ColumnType::Text) => {
            text.extend_from_slice(b" text COLLATE \"C\" NOT NULL")
        }
        (Database::Sqlite, ColumnType::Int) => {
            put_around(
                text,
                b" INT NOT NULL CHECK (typeof(",
                name,
                b") = 'integer')",
            )
        }
        (Database::Sqlite, ColumnType::Bool) => {
            put_around(text, b" INT NOT NULL CHECK (", name, b" IN (0, 1))")
        }
        (Database::Sqlite, ColumnType::Text) => {
            put_around(text, b" TEXT NOT NULL CHECK (typeof(", name, b") = 'text')")
        }
    }
}

/// Puts a name with texts around it.
pub(crate) fn put_around(
    text: &mut List<u8>,
    before: &[u8],
    name: &Label,
    behind: &[u8],
) -> Result<(), Memory>
    ensures { OnOk result (text.new
        ≡ text.old ++ around before.now name.now behind.now) }
{
    text.extend_from_slice(before)?;
    put_name(text, name)?;
    text.extend_from_slice(behind)
}

// Puts the cell of a column of a table, from the cell of CSV under the same name.
fn put_read_cell(text: &mut List<u8>, name: &Label, ty: ColumnType) -> Result<(), Memory>
    ensures { OnOk result (text.new ≡ text.old ++ read_cell name.now ty) }
{
    match ty {
        ColumnType::Int | ColumnType::Text => put_name(text, name),
        ColumnType::Bool => put_around(
            text,
            b"CASE ",
            name,
            b" WHEN 'true' THEN 1 WHEN 't' THEN 1 WHEN 'false' THEN 0 WHEN 'f' THEN 0 END",
        ),
    }
}

// Puts the cell of a table of one column.
fn put_only_cell(text: &mut List<u8>, name: &Label, ty: ColumnType) -> Result<(), Memory>
    ensures { OnOk result (text.new ≡ text.old ++ only_cell name.now ty) }
{
    match ty {
        ColumnType::Int | ColumnType::Bool => put_read_cell(text, name, ty),
        ColumnType::Text => put_around(text, b"NULLIF(", name, b", '')"),
    }
}

// Puts the cell of CSV, from the cell of a column of an answer.
fn put_written_cell(text: &mut List<u8>, name: &Label, ty: ColumnType) -> Result<(), Memory>
    ensures { OnOk result (text.new ≡ text.old ++ written_cell name.now ty) }
{
    match ty {
        ColumnType::Int | ColumnType::Text => put_name(text, name),
        ColumnType::Bool => put_around(
            text,
            b"CASE ",
            name,
            b" WHEN 1 THEN 'true' WHEN 0 THEN 'false' END",
        ),
    }
}

// Puts a column in a form.
fn put_column(text: &mut List<u8>, form: Form, name: &Label, ty: ColumnType) -> Result<(), Memory>
    ensures { OnOk result (text.new ≡ text.old ++ column_text form name.now ty) }
{
    match form {
        Form::Bare => text.extend_from_slice(name.as_str().as_bytes()),
        Form::Named => put_name(text, name),
        Form::Made(database) => {
            put_name(text, name)?;
            put_constraint(text, database, name, ty)
        }
        Form::Staged => {
            put_name(text, name)?;
            text.extend_from_slice(b" TEXT")
        }
        Form::Read => put_read_cell(text, name, ty),
        Form::Only => put_only_cell(text, name, ty),
        Form::Written => put_written_cell(text, name, ty),
    }
}

// Puts each column behind a sign.
fn put_more_columns(
    text: &mut List<u8>,
    form: Form,
    sign: &[u8],
    columns: &[(Label, ColumnType)],
) -> Result<(), Memory>
    ensures { OnOk result (text.new ≡ text.old ++ more_columns form sign.now columns.now) }
{
    for column in columns {
        text.extend_from_slice(sign)?;
        put_column(text, form, &column.0, column.1)?;
    }
    Ok(())
}

/// Puts columns in a form, with a sign between them.
#[tactic(auto, unfolding(crate::specs::Columns::columns_text))]
pub(crate) fn put_columns(
    text: &mut List<u8>,
    form: Form,
    sign: &[u8],
    columns: &[(Label, ColumnType)],
) -> Result<(), Memory>
    ensures { OnOk result (text.new ≡ text.old ++ columns_text form sign.now columns.now) }
{
    let Some((first, rest)) = columns.split_first() else {
        return Ok(());
    };
    put_column(text, form, &first.0, first.1)?;
    put_more_columns(text, form, sign, rest)
}

/// The columns of an answer of these types, with their names.
pub(crate) fn named_columns(
    alloc: Global,
    types: &[ColumnType],
) -> Result<List<(Label, ColumnType)>, Memory>
    ensures { IfOk result (λ columns. columns ≡ columns_from 0 types.now) }
{
    let mut columns = List::new(alloc);
    for place in 0..types.len() {
        columns.push((column_name(alloc, place)?, types[place]))?;
    }
    Ok(columns)
}
