// The lineage of a query over tables, by its traced form.
ghost use Rattle.std.specs.Prelude.{IfOk};
ghost use Rattle.nq_model.specs.Tables.{IsProperSchema};

use canon::{sort_deep, write};
use lineage::{
    TraceForm, Traced, decode, erase, has_no_numbers, recorded, trace_form, write_traced,
};
use normalise::normalise;
use nq_model::{List, Memory, Schema, Value};
use rows::Table;
use schema_reader::read_schema;
use std::alloc::Global;
use std::str;
use table_reader::read_table;
use test_support::plain;

/// The schema that a text spells.
pub fn schema_of(alloc: Global, text: &str) -> Result<Schema, Memory>
    ensures { IfOk result IsProperSchema }
{
    match read_schema(alloc, text.as_bytes()) {
        Ok(schema) => Ok(schema),
        Err(_) => Err(Memory),
    }
}

/// The traced form of a query.
pub fn form_of(alloc: Global, schema: &Schema, query: &str) -> Result<TraceForm, Memory>
    requires { IsProperSchema schema.now }
{
    let term = plain(alloc, schema, query)?;
    let normal = normalise(alloc, schema, &term)?;
    if !has_no_numbers(schema) {
        return Err(Memory);
    }
    trace_form(alloc, schema, &normal)
}

// The tables that texts have, where each row has its number in the last column.
fn tables_of(alloc: Global, schema: &Schema, texts: &[&str]) -> Result<List<Table>, Memory> {
    let mut tables = List::new(alloc);
    for (shape, text) in schema.tables.as_slice().iter().zip(texts.iter()) {
        let table = read_table(alloc, shape, text.as_bytes()).map_err(|_| Memory)?;
        tables.push(table)?;
    }
    Ok(tables)
}

/// The traced value of a query over the tables that texts have.
pub fn traced(
    alloc: Global,
    schema: &Schema,
    tables: &[&str],
    query: &str,
) -> Result<Traced, Memory>
    requires { IsProperSchema schema.now }
{
    let form = form_of(alloc, schema, query)?;
    let tables = tables_of(alloc, &form.schema, tables)?;
    let value = reference_forms::evaluate(alloc, &form.schema, tables.as_slice(), &form.normal)?;
    decode(alloc, &form, &value)
}

// A text of bytes, without its newline.
fn line(alloc: Global, bytes: List<u8>) -> Result<String, Memory> {
    let line = str::from_utf8(bytes.as_slice()).unwrap_or("no text");
    Ok(String::from_str(alloc, line.trim_end())?)
}

/// The text of a traced value, without its newline.
pub fn text_of(alloc: Global, traced: Traced) -> Result<String, Memory> {
    line(alloc, write_traced(alloc, traced)?)
}

/// The text of a traced value without its rows, without its newline.
pub fn plain_text_of(alloc: Global, traced: &Traced) -> Result<String, Memory> {
    let value: Value = erase(alloc, traced)?;
    line(alloc, write(alloc, &sort_deep(alloc, value)?)?)
}

/// The text of a traced value as a value of records, without its newline.
pub fn records_text_of(alloc: Global, traced: Traced) -> Result<String, Memory> {
    line(alloc, write(alloc, &recorded(alloc, traced)?)?)
}
