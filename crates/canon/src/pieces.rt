// Pieces of canonical texts.
ghost use Rattle.std.specs.Prelude.{◌≡◌, ◌++◌, OnOk, string_bytes};
ghost use Rattle.nq_model.specs.CellRefs.{cell_seen};
ghost use Rattle.nq_model.specs.Canonical.{cell_text};
ghost use Rattle.nq_model.specs.Separators.{separator};
ghost use Rattle.nq_model.specs.declared.table.Cell.TheVariants as cell;

use itoa::Buffer;
use nq_model::{CellRef, Memory};

/// Writes what stands before the field or the element at a place: nothing before the first, and `, `
/// before each other. Fails only if memory runs out.
pub fn write_separator(text: &mut String, place: usize) -> Result<(), Memory>
    ensures { OnOk result (string_bytes text.new ≡ string_bytes text.old ++ separator place) }
{
    if place > 0 {
        text.push_str(", ")?;
    }
    Ok(())
}

// The text between single quotes, with each single quote doubled.
#[inline(always)]
pub(crate) fn write_quoted(text: &mut String, quoted: &str) -> Result<(), Memory>
    ensures { OnOk result (string_bytes text.new
        ≡ string_bytes text.old ++ cell_text (cell.Text quoted.now)) }
{
    text.push_str("'")?;
    let mut rest = quoted;
    while let Some((before, after)) = rest.split_once('\'') {
        text.push_str(before)?;
        text.push_str("''")?;
        rest = after;
    }
    text.push_str(rest)?;
    text.push_str("'")?;
    Ok(())
}

/// Writes the canonical text of a cell: an integer in decimal, `true` or `false`, and a text between
/// single quotes, with each single quote doubled. Fails only if memory runs out.
// Inlined, as is what it calls for a text: a cell that is passed through memory is copied there,
// which waits for whatever was read before it. For rows in no order that is a text that is not in
// the cache, and each would be waited for alone.
#[inline(always)]
pub fn write_cell(text: &mut String, cell: &CellRef<'_>) -> Result<(), Memory>
    ensures { OnOk result (string_bytes text.new
        ≡ string_bytes text.old ++ cell_text (cell_seen cell.now)) }
{
    match cell {
        CellRef::Int(number) => Ok(text.push_str(Buffer::new().format(*number))?),
        CellRef::Bool(truth) => Ok(write!(text, "{truth}")?),
        CellRef::Text(quoted) => write_quoted(text, quoted),
    }
}
