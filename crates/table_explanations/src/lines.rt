// The lines of an explanation that tell more than its place.
ghost use Rattle.std.specs.Prelude.{◌≡◌, ◌++◌, IfOk, OnOk};
ghost use Rattle.std.specs.Fmt.{decimal};
ghost use Rattle.nq_model.specs.Tables.{names_of};
ghost use Rattle.table_explanations.specs.Lines.{cell_line, comma, joined, line};

use crate::cells::is_shown;
use nq_model::{ColumnType, Label, List, Memory};
use std::alloc::Global;

/// Puts a line: a word, a colon and what is said.
#[tactic(auto, unfolding(crate::specs::Lines::line))]
pub(crate) fn put_line(text: &mut List<u8>, word: &str, said: &[u8]) -> Result<(), Memory>
    ensures { OnOk result (text.new ≡ text.old ++ line word.now said.now) }
{
    text.extend_from_slice(word.as_bytes())?;
    text.extend_from_slice(b": ")?;
    text.extend_from_slice(said)?;
    text.extend_from_slice(b"\n")
}

/// Puts a line with a number.
pub(crate) fn put_number(
    alloc: Global,
    text: &mut List<u8>,
    word: &str,
    number: u64,
) -> Result<(), Memory>
    ensures { OnOk result (text.new ≡ text.old ++ line word.now (decimal number)) }
{
    let digits = number.to_string(alloc)?;
    put_line(text, word, digits.as_bytes())
}

/// Puts a line with a cell, if it is shown.
pub(crate) fn put_cell(text: &mut List<u8>, word: &str, cell: &[u8]) -> Result<(), Memory>
    ensures { OnOk result (text.new ≡ text.old ++ cell_line word.now cell.now) }
{
    if is_shown(cell) {
        put_line(text, word, cell)
    } else {
        Ok(())
    }
}

// Puts a name behind so many others.
fn put_name(text: &mut List<u8>, before: usize, name: &str) -> Result<(), Memory>
    ensures { OnOk result (text.new ≡ text.old ++ (comma before ++ name.now)) }
{
    if 0 < before {
        text.extend_from_slice(b",")?;
    }
    text.extend_from_slice(name.as_bytes())
}

// The names of the columns, with commas between them.
fn joined_names(alloc: Global, columns: &[(Label, ColumnType)]) -> Result<List<u8>, Memory>
    ensures { IfOk result (λ made. made ≡ joined (names_of columns.now)) }
{
    let mut made = List::new(alloc);
    for at in 0..columns.len() {
        put_name(&mut made, at, columns[at].0.as_str())?;
    }
    Ok(made)
}

// These names, with commas between them.
fn joined_labels(alloc: Global, labels: &[Label]) -> Result<List<u8>, Memory>
    ensures { IfOk result (λ made. made ≡ joined labels.now) }
{
    let mut made = List::new(alloc);
    for at in 0..labels.len() {
        put_name(&mut made, at, labels[at].as_str())?;
    }
    Ok(made)
}

/// Puts a line with the names of the columns.
pub(crate) fn put_names(
    alloc: Global,
    text: &mut List<u8>,
    word: &str,
    columns: &[(Label, ColumnType)],
) -> Result<(), Memory>
    ensures { OnOk result (text.new ≡ text.old ++ line word.now (joined (names_of columns.now))) }
{
    let names = joined_names(alloc, columns)?;
    put_line(text, word, names.as_slice())
}

/// Puts a line with these names.
pub(crate) fn put_labels(
    alloc: Global,
    text: &mut List<u8>,
    word: &str,
    labels: &[Label],
) -> Result<(), Memory>
    ensures { OnOk result (text.new ≡ text.old ++ line word.now (joined labels.now)) }
{
    let names = joined_labels(alloc, labels)?;
    put_line(text, word, names.as_slice())
}
