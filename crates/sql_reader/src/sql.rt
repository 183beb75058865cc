// Reads an SQL text.
ghost use Rattle.sql_reader.specs.Parsing.{Parsed};

use crate::fault::SqlFault;
use crate::lexer::tokens;
use crate::read::read;
use sql_profile::SqlText;
use std::alloc::Global;
use std::str;

/// The tree that an SQL text spells at a depth, with its places. Parentheses count for the depth
/// and leave nothing in the tree. The faults come in this order, each at its first place in the
/// text: `NotUtf8`; `Token` and `IntRange`; `Unexpected` and `Deep`, at the first token with which
/// no text of that depth begins. `Memory` where there is too little memory, or the tree would have
/// too many levels for a stack.
pub fn read_sql(alloc: Global, text: &[u8], depth: u64) -> Result<SqlText, SqlFault>
    ensures { Parsed result depth text.now }
{
    match str::from_utf8(text) {
        Ok(text) => read_str(alloc, text, depth),
        Err(error) => Err(SqlFault::NotUtf8 {
            place: error.valid_up_to() as u64,
        }),
    }
}

fn read_str(alloc: Global, text: &str, depth: u64) -> Result<SqlText, SqlFault>
    ensures { Parsed result depth text.now }
{
    let tokens = tokens(alloc, text)?;
    read(alloc, tokens.as_slice(), depth)
}
