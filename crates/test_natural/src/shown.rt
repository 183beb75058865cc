// The natural texts of a query, as they are printed, or why there are none.
ghost use Rattle.std.specs.Prelude.{IfOk};
ghost use Rattle.nq_model.specs.Tables.{IsProperSchema};

use natural_index::{NaturalFault, natural_texts};
use normalise::normalise;
use nq_model::{List, Memory, Schema};
use schema_reader::read_schema;
use sql_printer::print;
use sql_profile::SqlText;
use std::alloc::Global;
use test_support::{Page, plain};

// The schema of a text that is one.
fn schema_of(alloc: Global, text: &[u8]) -> Result<Schema, Memory>
    ensures { IfOk result IsProperSchema }
{
    match read_schema(alloc, text) {
        Ok(schema) => Ok(schema),
        Err(_) => Err(Memory),
    }
}

// Each text and the end of its line.
fn lines(alloc: Global, texts: &List<SqlText>) -> Result<String, Memory> {
    let mut page = Page::new(alloc);
    for text in texts.as_slice() {
        let printed = print(alloc, text)?;
        match str::from_utf8(printed.as_slice()) {
            Ok(printed) => page.say(printed)?,
            Err(_) => page.say("not UTF-8")?,
        }
        page.say("\n")?;
    }
    let Page { text, .. } = page;
    Ok(text)
}

/// The natural texts of a query over a schema, each on a line, or the table that has no key.
pub fn shown(alloc: Global, schema: &[u8], query: &str) -> Result<String, Memory> {
    let schema = schema_of(alloc, schema)?;
    let term = plain(alloc, &schema, query)?;
    let normal = normalise(alloc, &schema, &term)?;
    match natural_texts(alloc, &schema, &normal) {
        Ok(natural) => lines(alloc, &natural.texts),
        Err(NaturalFault::NoKey { table }) => {
            let mut page = Page::new(alloc);
            page.say("no key: ")?;
            page.say(table.as_str())?;
            let Page { text, .. } = page;
            Ok(text)
        }
        Err(NaturalFault::Memory) => Err(Memory),
    }
}
