// The names of the files of answers.
ghost use Rattle.std.specs.Prelude.{◌≡◌, ◌++◌, OnOk};
ghost use Rattle.std.specs.List.{flat_map};
ghost use Rattle.database_scripts.specs.Files.{file_text, here, mark, quoted_byte};

use crate::database::Database;
use nq_model::{List, Memory};
use std::alloc::Global;

// The quote around the name of a file.
fn mark(database: Database) -> u8
    ensures { result ≡ mark database }
{
    match database {
        Database::Postgres => b'\'',
        Database::Sqlite => b'"',
    }
}

// Puts a byte that stands within quotes.
fn put_quoted_byte(text: &mut List<u8>, quote: u8, byte: u8) -> Result<(), Memory>
    ensures { OnOk result (text.new ≡ text.old ++ quoted_byte quote byte) }
{
    if byte == b'\n' {
        return text.extend_from_slice(b"\\n");
    }
    if byte == b'\\' {
        return text.extend_from_slice(b"\\\\");
    }
    if byte == quote {
        text.extend_from_slice(b"\\")?;
    }
    text.push(byte)
}

// Puts bytes that stand within quotes.
fn put_quoted(text: &mut List<u8>, quote: u8, bytes: &[u8]) -> Result<(), Memory>
    ensures { OnOk result (text.new ≡ text.old ++ flat_map (quoted_byte quote) bytes.now) }
{
    for byte in bytes {
        put_quoted_byte(text, quote, *byte)?;
    }
    Ok(())
}

// What stands before a folder.
fn here(folder: &[u8]) -> &'static [u8]
    ensures { result.now ≡ here folder.now }
{
    match folder.split_first() {
        Some((first, _)) if *first == b'/' => b"",
        _ => b"./",
    }
}

/// Puts the file of the answer with a number, counted from 1, in quotes.
#[tactic(auto, unfolding(crate::specs::Files::file_text))]
pub(crate) fn put_file(
    alloc: Global,
    text: &mut List<u8>,
    database: Database,
    folder: &[u8],
    number: usize,
) -> Result<(), Memory>
    ensures { OnOk result (text.new ≡ text.old ++ file_text database folder.now number) }
{
    let quote = mark(database);
    let digits = number.to_string(alloc)?;
    text.push(quote)?;
    text.extend_from_slice(here(folder))?;
    put_quoted(text, quote, folder)?;
    text.extend_from_slice(b"/")?;
    text.extend_from_slice(digits.as_bytes())?;
    text.extend_from_slice(b".csv")?;
    text.push(quote)
}
