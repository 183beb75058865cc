// What was found where a rule of scope is broken.
ghost use Rattle.std.specs.Prelude.{◌≡◌, ◌++◌, IfOk, OnOk};
ghost use Rattle.explanations.specs.Explanations.{found_line};
ghost use Rattle.explanations.specs.Lists.{listed, words_view};
ghost use Rattle.explanations.specs.SqlFound.{is_nothing, row_text, sql_found_line};
ghost use Rattle.explanations.specs.SqlFound.{sql_found_text, type_words};

use crate::lists::put_listed;
use crate::sql_columns::{lent_columns, put_columns, type_word};
use nq_model::{ColumnType, List, Memory};
use sql_scope::Found;
use std::alloc::Global;

// The words of types.
fn type_words(alloc: Global, types: &[ColumnType]) -> Result<List<&'static str>, Memory>
    ensures { IfOk result (λ words. words_view words ≡ type_words types.now) }
{
    let mut words = List::new(alloc);
    for ty in types {
        words.push(type_word(*ty))?;
    }
    Ok(words)
}

// Puts types one after the other, with this before the last of them.
fn put_types(
    alloc: Global,
    text: &mut List<u8>,
    last: &str,
    types: &[ColumnType],
) -> Result<(), Memory>
    ensures { OnOk result (text.new ≡ text.old ++ listed last.now (type_words types.now)) }
{
    let words = type_words(alloc, types)?;
    put_listed(text, last, words.as_slice())
}

// Puts the types of a row.
fn put_row(alloc: Global, text: &mut List<u8>, types: &[ColumnType]) -> Result<(), Memory>
    ensures { OnOk result (text.new ≡ text.old ++ row_text types.now) }
{
    text.extend_from_slice(b"(")?;
    put_types(alloc, text, ", ", types)?;
    text.extend_from_slice(b")")
}

// Whether nothing was found.
fn is_nothing(found: &Found) -> bool
    ensures { result ≡ is_nothing found.now }
{
    match found {
        Found::Types(types) => types.is_empty(),
        Found::Columns(columns) => columns.is_empty(),
        Found::Rows(_, _) => false,
    }
}

// Puts what was found.
fn put_parts(alloc: Global, text: &mut List<u8>, found: &Found) -> Result<(), Memory>
    ensures { OnOk result (text.new ≡ text.old ++ sql_found_text found.now) }
{
    match found {
        Found::Types(types) => put_types(alloc, text, " and ", types.as_slice()),
        Found::Columns(columns) => {
            let lent = lent_columns(alloc, columns.as_slice())?;
            put_columns(text, lent.as_slice())
        }
        Found::Rows(first, others) => {
            put_row(alloc, text, first.as_slice())?;
            text.extend_from_slice(b" and ")?;
            put_row(alloc, text, others.as_slice())
        }
    }
}

// Puts a line of what was found.
#[tactic(auto, unfolding(crate::specs::Explanations::found_line))]
fn put_line(alloc: Global, text: &mut List<u8>, found: &Found) -> Result<(), Memory>
    ensures { OnOk result (text.new ≡ text.old ++ found_line (sql_found_text found.now)) }
{
    text.extend_from_slice(b"found: ")?;
    put_parts(alloc, text, found)?;
    text.extend_from_slice(b"\n")
}

/// Puts a line of what was found, unless nothing was.
#[tactic(auto, unfolding(crate::specs::SqlFound::sql_found_line))]
pub(crate) fn put_sql_found(alloc: Global, text: &mut List<u8>, found: &Found) -> Result<(), Memory>
    ensures { OnOk result (text.new ≡ text.old ++ sql_found_line found.now) }
{
    if is_nothing(found) {
        Ok(())
    } else {
        put_line(alloc, text, found)
    }
}
