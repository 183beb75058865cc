// Columns, and those of an SQL text.
ghost use Rattle.std.specs.Prelude.{◌≡◌, ◌++◌, IfOk, OnOk, zip};
ghost use Rattle.explanations.specs.SqlColumns.{column_text, columns_behind, columns_line};
ghost use Rattle.explanations.specs.SqlColumns.{columns_text, columns_view, result_names};
ghost use Rattle.nq_model.specs.SchemaTexts.{type_word};
ghost use Rattle.sql_profile.specs.AllowedAnswers.{item_names, query_names};
ghost use Rattle.sql_profile.specs.Parts.{items_tree};
ghost use Rattle.sql_profile.specs.Trees.{query_tree, sql_tree};

use nq_model::{ColumnType, Label, List, Memory};
use sql_profile::{Item, Query, SqlText};
use std::alloc::Global;

/// The word of a base type.
pub(crate) fn type_word(ty: ColumnType) -> &'static str
    ensures { result.now ≡ type_word ty }
{
    match ty {
        ColumnType::Int => "int",
        ColumnType::Bool => "bool",
        ColumnType::Text => "text",
    }
}

// Puts the name of a column, and its type.
fn put_column(text: &mut List<u8>, name: &str, ty: ColumnType) -> Result<(), Memory>
    ensures { OnOk result (text.new ≡ text.old ++ column_text (name.now, ty)) }
{
    text.extend_from_slice(b"\"")?;
    text.extend_from_slice(name.as_bytes())?;
    text.extend_from_slice(b"\": ")?;
    text.extend_from_slice(type_word(ty).as_bytes())
}

// Puts columns, which stand behind others.
fn put_behind(text: &mut List<u8>, columns: &[(&str, ColumnType)]) -> Result<(), Memory>
    ensures { OnOk result (text.new
        ≡ text.old ++ columns_behind (columns_view columns.now)) }
{
    for column in columns {
        text.extend_from_slice(b", ")?;
        put_column(text, column.0, column.1)?;
    }
    Ok(())
}

/// Puts columns one after the other.
pub(crate) fn put_columns(text: &mut List<u8>, columns: &[(&str, ColumnType)]) -> Result<(), Memory>
    ensures { OnOk result (text.new ≡ text.old ++ columns_text (columns_view columns.now)) }
{
    match columns {
        [] => Ok(()),
        [column, behind @ ..] => {
            put_column(text, column.0, column.1)?;
            put_behind(text, behind)
        }
    }
}

// The items of the first SELECT of a query.
fn first_items<'a>(query: &'a Query) -> &'a [Item]
    ensures { item_names (items_tree result.now) ≡ query_names (query_tree query.now) }
{
    match query.selects.as_slice() {
        [] => &[],
        [first, ..] => first.items.as_slice(),
    }
}

// The names of items, each with its type.
#[tactic(auto, using(crate::proofs::SqlColumns::at_end, crate::proofs::SqlColumns::items_named))]
fn columns_of<'a>(
    alloc: Global,
    items: &'a [Item],
    types: &[ColumnType],
) -> Result<List<(&'a str, ColumnType)>, Memory>
    ensures { IfOk result (λ columns. columns_view columns
        ≡ zip (item_names (items_tree items.now)) types.now) }
{
    let mut columns = List::new(alloc);
    for at in 0..items.len().min(types.len()) {
        columns.push((items[at].name.as_str(), types[at]))?;
    }
    Ok(columns)
}

/// The columns of a source, their names lent.
pub(crate) fn lent_columns(
    alloc: Global,
    columns: &[(Label, ColumnType)],
) -> Result<List<(&str, ColumnType)>, Memory>
    ensures { IfOk result (λ lent. columns_view lent ≡ columns.now) }
{
    let mut lent = List::new(alloc);
    for column in columns {
        lent.push((column.0.as_str(), column.1))?;
    }
    Ok(lent)
}

/// A line with the columns of an SQL text that has these types, as `"n": int, "name": text`. Fails
/// only if memory runs out.
#[tactic(auto, unfolding(crate::specs::SqlColumns::columns_line))]
pub fn columns_line(alloc: Global, text: &SqlText, types: &[ColumnType]) -> Result<List<u8>, Memory>
    ensures { IfOk result (λ made. made
        ≡ columns_line (result_names (sql_tree text.now)) types.now) }
{
    let columns = columns_of(alloc, first_items(&text.main), types)?;
    let mut made = List::new(alloc);
    put_columns(&mut made, columns.as_slice())?;
    made.extend_from_slice(b"\n")?;
    Ok(made)
}
