// The symbols of the query language, longer ones before those that they begin with.
ghost use Rattle.std.specs.Prelude.{◌≡◌};
ghost use Rattle.nq_model.specs.QueryTokens.{Takes, symbol_front, symbols};
ghost use Rattle.query_syntax.specs.Fronts.{front_view, mark_token, table_view};

use crate::front::Front;
use crate::symbol::{Operator, Symbol};
use nq_model::Binary;

/// A symbol of the language.
#[derive(Clone, Copy)]
pub enum Mark {
    Operator(Operator),
    Opening,
    Closing,
    OpeningBag,
    ClosingBag,
    Comma,
    Colon,
    Semicolon,
    Dot,
    Assign,
    From,
    Arrow,
    Bang,
}

const SYMBOLS: [(&str, Mark); 24] = [
    ("++", Mark::Operator(Operator::Union)),
    ("==", Mark::Operator(Operator::Of(Binary::Eq))),
    ("!=", Mark::Operator(Operator::Of(Binary::Ne))),
    ("<=", Mark::Operator(Operator::Of(Binary::Le))),
    (">=", Mark::Operator(Operator::Of(Binary::Ge))),
    ("<-", Mark::From),
    ("->", Mark::Arrow),
    ("&&", Mark::Operator(Operator::Of(Binary::And))),
    ("||", Mark::Operator(Operator::Of(Binary::Or))),
    ("(", Mark::Opening),
    (")", Mark::Closing),
    ("[", Mark::OpeningBag),
    ("]", Mark::ClosingBag),
    (",", Mark::Comma),
    (":", Mark::Colon),
    (";", Mark::Semicolon),
    (".", Mark::Dot),
    ("=", Mark::Assign),
    ("<", Mark::Operator(Operator::Of(Binary::Lt))),
    (">", Mark::Operator(Operator::Of(Binary::Gt))),
    ("+", Mark::Operator(Operator::Of(Binary::Add))),
    ("-", Mark::Operator(Operator::Of(Binary::Sub))),
    ("*", Mark::Operator(Operator::Of(Binary::Mul))),
    ("!", Mark::Bang),
];

// A symbol of so many bytes.
fn takes<'a>(size: usize, mark: Mark) -> Front<'a>
    ensures { front_view result ≡ Takes size (mark_token mark) }
{
    match mark {
        Mark::Operator(operator) => Front::Takes(size, Symbol::Operator(operator)),
        Mark::Opening => Front::Takes(size, Symbol::Opening),
        Mark::Closing => Front::Takes(size, Symbol::Closing),
        Mark::OpeningBag => Front::Takes(size, Symbol::OpeningBag),
        Mark::ClosingBag => Front::Takes(size, Symbol::ClosingBag),
        Mark::Comma => Front::Takes(size, Symbol::Comma),
        Mark::Colon => Front::Takes(size, Symbol::Colon),
        Mark::Semicolon => Front::Takes(size, Symbol::Semicolon),
        Mark::Dot => Front::Takes(size, Symbol::Dot),
        Mark::Assign => Front::Takes(size, Symbol::Assign),
        Mark::From => Front::Takes(size, Symbol::From),
        Mark::Arrow => Front::Takes(size, Symbol::Arrow),
        Mark::Bang => Front::Takes(size, Symbol::Bang),
    }
}

// The first symbol of a table with which the bytes begin.
fn first_of<'a>(table: &[(&str, Mark)], bytes: &[u8]) -> Front<'a>
    ensures { front_view result ≡ symbol_front (table_view table.now) bytes.now }
{
    for row in table {
        if bytes.starts_with(row.0.as_bytes()) {
            return takes(row.0.len(), row.1);
        }
    }
    Front::NoToken
}

/// The first symbol with which the bytes begin.
pub fn symbol_front<'a>(bytes: &[u8]) -> Front<'a>
    ensures { front_view result ≡ symbol_front symbols bytes.now }
{
    first_of(&SYMBOLS, bytes)
}
