// What the tokens of a text write: tables with their columns and keys, and the places of the names.
ghost use Rattle.std.specs.Prelude.{◌≡◌, map, OnOk};
ghost use Rattle.nq_model.specs.SchemaTokens.{token};
ghost use Rattle.schema_reader.specs.Fronts.{symbol_view};
ghost use Rattle.schema_reader.specs.Machine.{blank, start, added};
ghost use Rattle.schema_reader.specs.Views.{spot_view, addition_view};
ghost use Rattle.schema_reader.specs.Reading.{table_view, reader_view, Steps, Ends, Writes};

use crate::fault::SchemaFault;
use crate::front::{Front, Symbol, front_at};
use crate::grammar::{Addition, Name, Spot, WrittenColumn, after_token};
use nq_model::{List, Memory};
use std::alloc::Global;
use std::mem;

/// A table as it is written.
#[derive(Drop)]
pub struct WrittenTable<'a> {
    pub name: Name<'a>,
    pub columns: List<WrittenColumn<'a>>,
    pub key: List<Name<'a>>,
}

impl<'a> WrittenTable<'a> {
    // A table of which nothing was read.
    fn blank(alloc: Global) -> WrittenTable<'a>
        ensures { table_view result ≡ blank }
    {
        WrittenTable {
            name: Name { place: 0, text: "" },
            columns: List::new(alloc),
            key: List::new(alloc),
        }
    }
}

// The tables that were read, the one that is being read, and where the next token stands.
#[derive(Drop)]
struct Reader<'a> {
    tables: List<WrittenTable<'a>>,
    table: WrittenTable<'a>,
    spot: Spot<'a>,
}

impl<'a> Reader<'a> {
    fn new(alloc: Global) -> Reader<'a>
        ensures { reader_view result ≡ start }
    {
        Reader {
            tables: List::new(alloc),
            table: WrittenTable::blank(alloc),
            spot: Spot::Between,
        }
    }

    // Adds what a token says.
    fn add(&mut self, alloc: Global, addition: Addition<'a>) -> Result<(), Memory>
        ensures { OnOk result (reader_view self.new
            ≡ added (map table_view self.old.tables) (table_view self.old.table)
            (spot_view self.old.spot) (addition_view addition.entry)) }
    {
        match addition {
            Addition::Nothing => {}
            Addition::TableName(name) => self.table.name = name,
            Addition::Column(column) => self.table.columns.push(column)?,
            Addition::KeyPart(name) => self.table.key.push(name)?,
            Addition::WholeTable => {
                let table = mem::replace(&mut self.table, WrittenTable::blank(alloc));
                self.tables.push(table)?;
            }
        }
        Ok(())
    }

    // Reads a token.
    fn take(&mut self, alloc: Global, place: u64, symbol: Symbol<'a>) -> Result<(), SchemaFault>
        ensures { Steps result (reader_view self.old) (token place (symbol_view symbol.entry))
            (reader_view self.new) }
    {
        let Some((spot, addition)) = after_token(self.spot, place, symbol) else {
            return Err(SchemaFault::Syntax { place });
        };
        self.spot = spot;
        self.add(alloc, addition)?;
        Ok(())
    }

    // Reads the end.
    fn finish(self, place: u64) -> Result<List<WrittenTable<'a>>, SchemaFault>
        ensures { Ends result (reader_view self.entry) place }
    {
        match self.spot {
            Spot::Between => Ok(self.tables),
            _ => Err(SchemaFault::Syntax { place }),
        }
    }
}

/// The tables that a text writes. `Memory`, or `Syntax` at the first byte where no token begins, or
/// at the first token with which the tokens so far begin no schema.
pub fn read_tables<'a>(alloc: Global, text: &'a [u8]) -> Result<List<WrittenTable<'a>>, SchemaFault>
    ensures { Writes result text.now }
{
    let mut reader = Reader::new(alloc);
    let mut at = 0;
    loop {
        let place = at as u64;
        match front_at(at, &text[at..]) {
            Front::End => return reader.finish(place),
            Front::Stray => return Err(SchemaFault::Syntax { place }),
            Front::Gap(len) => at += len,
            Front::Token(symbol, len) => {
                reader.take(alloc, place, symbol)?;
                at += len;
            }
        }
    }
}
