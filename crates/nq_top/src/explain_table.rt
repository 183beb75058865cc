// The type of a table's rows, or what explains why its text is refused.
ghost use Rattle.std.specs.Prelude.{◌≡◌, false, IfOk, IfSome, Ok, option_copied};
ghost use Rattle.nq_model.specs.Typing.{shape_named};
ghost use Rattle.nq_model.specs.Terms.{placed};
ghost use Rattle.nq_top.specs.Judging.{rows_or_cause, shape_explained, table_explained};
ghost use Rattle.nq_top.specs.Judging.{table_query, typed_or_explained};
ghost use Rattle.nq_top.specs.Reading.{Reading};
ghost use Rattle.nq_top.specs.Steps.{CanServe, GatherTells, InputCounts, Says, gathered_asks};
ghost use Rattle.table_reader.specs.Tables.{table_of};

use crate::explain::explain_term;
use crate::gather::Gathered;
use crate::inputs::fetch_input;
use crate::tables::{TABLES_LIMIT, TableTexts, file_of};
use command_line::InputRefusal;
use explanations::explain_table_name;
use nq_edge::Inputs;
use nq_model::{List, Memory, Node, Schema, TableShape, Term};
use std::alloc::Global;
use table_explanations::explain_table;
use table_reader::read_table;

// The table of this name.
fn shape_named<'a>(schema: &'a Schema, name: &str) -> Option<&'a TableShape>
    ensures { option_copied result ≡ shape_named name.now schema.now.tables }
{
    for shape in schema.tables.as_slice() {
        if name == shape.name.as_str() {
            return Some(shape);
        }
    }
    None
}

// The query that gives the rows of a table.
fn table_query(alloc: Global, shape: &TableShape) -> Result<Term, Memory>
    ensures { IfOk result (λ query. placed query ≡ table_query shape.now.name) }
{
    let node = Node::Table(shape.name.copy(alloc)?);
    Ok(Term { place: 0, node })
}

// The line of the type of the rows of a table, which the text of a file gives.
fn explain_query(
    alloc: Global,
    schema: &Schema,
    shape: &TableShape,
    file: &[u8],
    text: &[u8],
) -> Result<List<u8>, Memory>
    ensures { IfOk result (Says (typed_or_explained schema.now file.now text.now
        (Ok (table_query shape.now.name)))) }
{
    let query = table_query(alloc, shape)?;
    let made = explain_term(alloc, schema, file, text, &query);
    drop(query);
    made
}

// The line of the type of the rows that the text of a file gives a table, or what explains why it
// is refused.
fn explain_rows(
    alloc: Global,
    schema: &Schema,
    shape: &TableShape,
    file: &[u8],
    text: &[u8],
) -> Result<List<u8>, Memory>
    ensures { IfOk result (Says (rows_or_cause schema.now shape.now file.now text.now
        (table_of shape.now text.now))) }
{
    match read_table(alloc, shape, text) {
        Ok(table) => {
            drop(table);
            explain_query(alloc, schema, shape, file, text)
        }
        Err(fault) => explain_table(alloc, file, text, shape, &fault),
    }
}

// The same of the CSV text of a table in a folder, which is fetched.
#[tactic(auto, using(crate::proofs::Steps::fetch_rules))]
fn gather_shape<I: Inputs>(
    alloc: Global,
    inputs: &mut I,
    schema: &Schema,
    shape: &TableShape,
    folder: &str,
) -> Result<Gathered, InputRefusal>
    ensures counts { InputCounts (I.faults inputs.old) (I.faults inputs.new) result }
    ensures servable { IfOk result CanServe }
    ensures asks { IfOk result (λ gathered. gathered_asks gathered ≡ false) }
    ensures tells { IfSome (I.held inputs.old) (λ files. (reading : Reading) →
        GatherTells (shape_explained files folder.now schema.now shape.now)
        (I.fetched inputs.old) (I.fetched inputs.new) result) }
{
    let file = file_of(alloc, TableTexts::Csv, folder, shape.name.as_str())?;
    let name = file.copy(alloc)?;
    let text = fetch_input(alloc, inputs, name, TABLES_LIMIT)?;
    let bytes = file.as_str().as_bytes();
    let made = explain_rows(alloc, schema, shape, bytes, text.as_slice())?;
    Ok(Gathered::Text(made))
}

/// The same of the table of a name; or that the schema has no such table.
pub(crate) fn gather_table<I: Inputs>(
    alloc: Global,
    inputs: &mut I,
    schema: &Schema,
    table: &str,
    folder: &str,
) -> Result<Gathered, InputRefusal>
    ensures counts { InputCounts (I.faults inputs.old) (I.faults inputs.new) result }
    ensures servable { IfOk result CanServe }
    ensures asks { IfOk result (λ gathered. gathered_asks gathered ≡ false) }
    ensures tells { IfSome (I.held inputs.old) (λ files. (reading : Reading) →
        GatherTells (table_explained files schema.now table.now folder.now
        (shape_named table.now schema.now.tables))
        (I.fetched inputs.old) (I.fetched inputs.new) result) }
{
    match shape_named(schema, table) {
        Some(shape) => gather_shape(alloc, inputs, schema, shape, folder),
        None => Ok(Gathered::Text(explain_table_name(alloc, table, schema)?)),
    }
}
