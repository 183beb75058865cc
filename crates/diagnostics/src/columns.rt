// The columns of a line.
ghost use Rattle.std.specs.Prelude.{◌≡◌, ◌+◌, ◌≤◌, ◌<◌, ◌∷◌, ◌++◌, drop, length, take, OnOk};
ghost use Rattle.std.specs.Str.{is_utf8};
ghost use Rattle.diagnostics.specs.Columns.{column_len, columns, is_control, is_text, shown, shown_byte, shown_line, whole_within};

use nq_model::{List, Memory};

// Whether the bytes are UTF-8.
fn is_utf8(bytes: &[u8]) -> bool
    ensures { result ≡ is_utf8 bytes.now }
{
    match str::from_utf8(bytes) {
        Ok(_) => true,
        Err(_) => false,
    }
}

// Whether the first bytes are UTF-8.
fn is_text(bytes: &[u8], count: usize) -> bool
    ensures { result ≡ is_text count bytes.now }
{
    if count < bytes.len() {
        is_utf8(&bytes[..count])
    } else {
        is_utf8(bytes)
    }
}

// How many bytes the column at the front has.
fn column_len(bytes: &[u8]) -> usize
    ensures { result ≡ column_len bytes.now }
{
    if is_text(bytes, 1) {
        1
    } else if is_text(bytes, 2) {
        2
    } else if is_text(bytes, 3) {
        3
    } else if is_text(bytes, 4) {
        4
    } else {
        1
    }
}

// The column at the front, and the bytes behind it.
#[tactic(auto, using(crate::proofs::ColumnSteps::fitting))]
fn split_column(bytes: &[u8]) -> (&[u8], &[u8])
    requires { 0 < length bytes.now }
    ensures columns { columns bytes.now ≡ result.0.now ∷ columns result.1.now }
    ensures len { length result.0.now + length result.1.now ≡ length bytes.now }
    ensures some { 0 < length result.0.now }
{
    bytes.split_at(column_len(bytes))
}

/// How many columns a line has.
pub(crate) fn count_columns(line: &[u8]) -> usize
    ensures { result ≡ length (columns line.now) }
{
    let mut rest = line;
    let mut count = 0;
    while 0 < rest.len() {
        rest = split_column(rest).1;
        count += 1;
    }
    count
}

/// How many columns of a line end before so many bytes, or with them.
pub(crate) fn whole_within(line: &[u8], count: usize) -> usize
    ensures is { result ≡ whole_within count (columns line.now) }
    ensures within { result ≤ length line.now }
{
    let mut rest = line;
    let mut left = count;
    let mut whole = 0;
    while 0 < rest.len() {
        let (column, behind) = split_column(rest);
        if left < column.len() {
            return whole;
        }
        left -= column.len();
        whole += 1;
        rest = behind;
    }
    whole
}

/// The bytes behind the first columns.
pub(crate) fn skip_columns(line: &[u8], count: usize) -> &[u8]
    ensures { columns result.now ≡ drop count (columns line.now) }
{
    let mut rest = line;
    for _at in 0..count {
        if rest.len() == 0 {
            return rest;
        }
        rest = split_column(rest).1;
    }
    rest
}

// Whether a terminal might obey the byte.
fn is_control(byte: u8) -> bool
    ensures { result ≡ is_control byte }
{
    byte < 32 || byte == 127
}

// Puts what is shown of a column of one byte.
fn put_byte(text: &mut List<u8>, byte: u8) -> Result<(), Memory>
    ensures { OnOk result (text.new ≡ text.old ++ shown_byte byte) }
{
    if byte == b'\t' {
        return text.extend_from_slice(b" ");
    }
    if is_control(byte) {
        return text.extend_from_slice(b"?");
    }
    text.push(byte)
}

// Puts what is shown of a column.
fn put_column(text: &mut List<u8>, column: &[u8]) -> Result<(), Memory>
    ensures { OnOk result (text.new ≡ text.old ++ shown column.now) }
{
    if !is_utf8(column) {
        return text.extend_from_slice(b"?");
    }
    if column.len() == 1 {
        return put_byte(text, column[0]);
    }
    text.extend_from_slice(column)
}

/// Puts what is shown of the first columns of a line.
pub(crate) fn put_columns(text: &mut List<u8>, line: &[u8], count: usize) -> Result<(), Memory>
    ensures { OnOk result (text.new
        ≡ text.old ++ shown_line (take count (columns line.now))) }
{
    let mut rest = line;
    for _at in 0..count {
        if rest.len() == 0 {
            return Ok(());
        }
        let (column, behind) = split_column(rest);
        put_column(text, column)?;
        rest = behind;
    }
    Ok(())
}
