// The rows of an answer, from its text.
ghost use Rattle.std.specs.Prelude.{◌≡◌, ◌≢◌, ◌<◌, ℕ, All, IfOk, IfErr, length, Ok, Err};
ghost use Rattle.nq_model.specs.Cells.{RowFits};
ghost use Rattle.table_reader.specs.Tables.{table_of};
ghost use Rattle.table_reader.specs.declared.TableFault.TheVariants as table_fault;
ghost use Rattle.foreign_answers.specs.Faults.{as_table_fault};
ghost use Rattle.foreign_answers.specs.Shapes.{shape_of};
ghost use Rattle.foreign_answers.specs.declared.faults.AnswerFault.TheVariants as fault;

use crate::faults::AnswerFault;
use crate::names::answer_name;
use nq_model::{ColumnType, Label, List, Memory, TableShape};
use sql_profile::Answer;
use std::alloc::Global;
use table_reader::{TableFault, read_table};

// The shape of an answer with columns of these types: a table without a key.
fn shape_of(alloc: Global, columns: &[ColumnType]) -> Result<TableShape, Memory>
    ensures { IfOk result (λ shape. shape ≡ shape_of columns.now) }
{
    let mut named = List::with_capacity(alloc, columns.len())?;
    for (place, column) in columns.iter().enumerate() {
        named.push((answer_name(alloc, place)?, *column))?;
    }
    Ok(TableShape {
        name: Label::from_str(alloc, "answer")?,
        columns: named,
        key: List::new(alloc),
    })
}

// The fault of a table text as that of an answer, which has no key.
fn fault_of(fault: TableFault) -> AnswerFault
    requires { (row earlier : ℕ) → fault ≢ table_fault.TwiceKey row earlier }
    ensures { as_table_fault result ≡ fault }
{
    match fault {
        TableFault::Memory => AnswerFault::Memory,
        TableFault::Header => AnswerFault::Header,
        TableFault::Width { row } => AnswerFault::Width { row },
        TableFault::NotUtf8 { row, column } => AnswerFault::NotUtf8 { row, column },
        TableFault::BadInt { row, column } => AnswerFault::BadInt { row, column },
        TableFault::BadBool { row, column } => AnswerFault::BadBool { row, column },
        TableFault::TwiceKey { .. } => unreachable!(),
    }
}

/// The rows that a text gives an answer with columns of these types, the two of the outer index
/// first. The text is that of a table without a key whose columns are called `ot`, `on`, `c1`, `c2`
/// and so on: CSV under a header of these names.
///
/// A fault is the first in reading order: the header, then row by row the number of cells and the
/// cells from the left. `AnswerFault::Memory` alone may come at any text.
pub fn read_answer(
    alloc: Global,
    columns: &[ColumnType],
    text: &[u8],
) -> Result<Answer, AnswerFault>
    requires two { 1 < length columns.now }
    ensures rows { IfOk result (λ answer. table_of (shape_of columns.now) text.now
        ≡ Ok answer.rows) }
    ensures fit { IfOk result (λ answer. All (RowFits columns.now) answer.rows) }
    ensures fault { IfErr result (λ e. e ≢ fault.Memory → table_of (shape_of columns.now) text.now
        ≡ Err (as_table_fault e)) }
{
    let shape = shape_of(alloc, columns)?;
    match read_table(alloc, &shape, text) {
        Ok(table) => Ok(Answer { rows: table.rows }),
        Err(TableFault::Memory) => Err(AnswerFault::Memory),
        Err(fault) => Err(fault_of(fault)),
    }
}
