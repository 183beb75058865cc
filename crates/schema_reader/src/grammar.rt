// The grammar of schemas, one token at a time.
ghost use Rattle.std.specs.Prelude.{◌≡◌, option_map};
ghost use Rattle.schema_reader.specs.Fronts.{mark_view, symbol_view};
ghost use Rattle.schema_reader.specs.Machine.{type_of, after_word, after_mark, after};
ghost use Rattle.schema_reader.specs.Views.{name_view, spot_view, place_view};

use crate::front::{Mark, Symbol};
use nq_model::ColumnType;

/// A word of the text, with its place.
#[derive(Clone, Copy)]
pub struct Name<'a> {
    pub place: u64,
    pub text: &'a str,
}

/// A column as it is written.
#[derive(Clone, Copy)]
pub struct WrittenColumn<'a> {
    pub name: Name<'a>,
    pub kind: ColumnType,
}

/// Where the next token stands.
#[derive(Clone, Copy)]
pub enum Spot<'a> {
    /// Before a table, or before the end.
    Between,
    /// Behind the word `table`.
    Titled,
    /// Behind the name of a table.
    Named,
    /// Behind the `(` of a table.
    First,
    /// Behind the name of the first column.
    FirstName(Name<'a>),
    /// Behind the name of a later column, or behind `key`.
    LaterName(Name<'a>),
    /// Behind the `:` of a column.
    Typed(Name<'a>),
    /// Behind a column.
    ColumnEnd,
    /// Behind the `,` after a column.
    Comma,
    /// Before a word of the key.
    KeyName,
    /// Behind a word of the key.
    KeyWord,
    /// Behind the `)` of the key.
    KeyEnd,
    /// Behind the `)` of a table.
    Closed,
}

/// What a token adds to what was read.
#[derive(Clone, Copy)]
pub enum Addition<'a> {
    Nothing,
    TableName(Name<'a>),
    Column(WrittenColumn<'a>),
    KeyPart(Name<'a>),
    WholeTable,
}

fn type_of(word: &str) -> Option<ColumnType>
    ensures { result ≡ type_of word.now }
{
    if word == "int" {
        return Some(ColumnType::Int);
    }
    if word == "bool" {
        return Some(ColumnType::Bool);
    }
    if word == "text" {
        return Some(ColumnType::Text);
    }
    None
}

fn after_word<'a>(spot: Spot<'a>, name: Name<'a>) -> Option<(Spot<'a>, Addition<'a>)>
    ensures { option_map place_view result
        ≡ after_word (spot_view spot.entry) (name_view name.entry) }
{
    match spot {
        Spot::Between if name.text == "table" => Some((Spot::Titled, Addition::Nothing)),
        Spot::Titled => Some((Spot::Named, Addition::TableName(name))),
        Spot::First => Some((Spot::FirstName(name), Addition::Nothing)),
        Spot::Comma => Some((Spot::LaterName(name), Addition::Nothing)),
        Spot::Typed(column) => {
            let kind = type_of(name.text)?;
            Some((
                Spot::ColumnEnd,
                Addition::Column(WrittenColumn { name: column, kind }),
            ))
        }
        Spot::KeyName => Some((Spot::KeyWord, Addition::KeyPart(name))),
        _ => None,
    }
}

fn after_mark<'a>(spot: Spot<'a>, mark: Mark) -> Option<(Spot<'a>, Addition<'a>)>
    ensures { option_map place_view result ≡ after_mark (spot_view spot.entry) (mark_view mark) }
{
    let next = match (spot, mark) {
        (Spot::Named, Mark::Opening) => Spot::First,
        (Spot::First | Spot::ColumnEnd | Spot::KeyEnd, Mark::Closing) => Spot::Closed,
        (Spot::FirstName(name) | Spot::LaterName(name), Mark::Colon) => Spot::Typed(name),
        (Spot::LaterName(name), Mark::Opening) if name.text == "key" => Spot::KeyName,
        (Spot::ColumnEnd, Mark::Comma) => Spot::Comma,
        (Spot::KeyWord, Mark::Comma) => Spot::KeyName,
        (Spot::KeyWord, Mark::Closing) => Spot::KeyEnd,
        (Spot::Closed, Mark::Semicolon) => {
            return Some((Spot::Between, Addition::WholeTable));
        }
        _ => return None,
    };
    Some((next, Addition::Nothing))
}

/// Where the next token stands behind one at a spot, and what it adds. `None` where it may not
/// stand there.
pub fn after_token<'a>(
    spot: Spot<'a>,
    place: u64,
    symbol: Symbol<'a>,
) -> Option<(Spot<'a>, Addition<'a>)>
    ensures { option_map place_view result
        ≡ after (spot_view spot.entry) place (symbol_view symbol.entry) }
{
    match symbol {
        Symbol::Word(text) => after_word(spot, Name { place, text }),
        Symbol::Mark(mark) => after_mark(spot, mark),
    }
}
