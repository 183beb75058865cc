// A place of a text as people count.
ghost use Rattle.std.specs.Prelude.{◌≡◌};
ghost use Rattle.diagnostics.specs.Lines.{line_number};
ghost use Rattle.diagnostics.specs.Columns.{column_number};

use crate::columns::whole_within;
use crate::lines::line_of;

/// A line and a column, both counted from 1.
#[derive(Clone, Copy, Debug, PartialEq, Eq)]
pub struct Place {
    pub line: u64,
    pub column: u64,
}

/// The line and the column of a place, which is a number of bytes. A line ends at a line feed, and
/// a carriage return before that is no part of it. A line feed at the very end begins no further
/// line. A column is a character, or a byte that is part of none. A place at or behind the end of
/// the text is the column behind the last character of the last line.
pub fn place_in(text: &[u8], place: u64) -> Place
    ensures line { result.line ≡ line_number text.now place }
    ensures column { result.column ≡ column_number text.now place }
{
    let line = line_of(text, place);
    Place {
        line: line.number,
        column: whole_within(line.bytes, line.before) as u64 + 1,
    }
}
