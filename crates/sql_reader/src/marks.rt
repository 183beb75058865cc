// Keywords, in any ASCII case, and symbols, longer ones before those that they begin with.
ghost use Rattle.std.specs.Prelude.{◌≡◌, map};
ghost use Rattle.sql_profile.specs.Tokens.{First, capital, keywords, same_bytes, symbol_front, symbols, word_front};
ghost use Rattle.sql_reader.specs.Fronts.{front_view, table_view};

use crate::front::Front;
use crate::token::{Mark, Symbol};
use nq_model::Binary;

const KEYWORDS: [(&str, Mark); 25] = [
    ("WITH", Mark::With),
    ("AS", Mark::As),
    ("UNION", Mark::Union),
    ("ALL", Mark::All),
    ("SELECT", Mark::Select),
    ("FROM", Mark::From),
    ("WHERE", Mark::Where),
    ("ROW_NUMBER", Mark::RowNumber),
    ("OVER", Mark::Over),
    ("ORDER", Mark::Order),
    ("BY", Mark::By),
    ("NOT", Mark::Not),
    ("EXISTS", Mark::Exists),
    ("CASE", Mark::Case),
    ("WHEN", Mark::When),
    ("THEN", Mark::Then),
    ("ELSE", Mark::Else),
    ("END", Mark::Stop),
    ("COUNT", Mark::Count),
    ("SUM", Mark::Sum),
    ("COALESCE", Mark::Coalesce),
    ("OR", Mark::Operator(Binary::Or)),
    ("AND", Mark::Operator(Binary::And)),
    ("TRUE", Mark::Truth(true)),
    ("FALSE", Mark::Truth(false)),
];

const SYMBOLS: [(&str, Mark); 14] = [
    ("<>", Mark::Operator(Binary::Ne)),
    ("<=", Mark::Operator(Binary::Le)),
    (">=", Mark::Operator(Binary::Ge)),
    ("=", Mark::Operator(Binary::Eq)),
    ("<", Mark::Operator(Binary::Lt)),
    (">", Mark::Operator(Binary::Gt)),
    ("+", Mark::Operator(Binary::Add)),
    ("-", Mark::Operator(Binary::Sub)),
    ("*", Mark::Operator(Binary::Mul)),
    ("(", Mark::Opening),
    (")", Mark::Closing),
    (",", Mark::Comma),
    (".", Mark::Dot),
    (";", Mark::Semicolon),
];

// An ASCII letter as a capital, any other byte as it is.
fn capital(byte: u8) -> u8
    ensures { result ≡ capital byte }
{
    if byte.is_ascii_lowercase() {
        byte - 32
    } else {
        byte
    }
}

// Whether the word is the keyword, in any case.
fn is_keyword(word: &[u8], keyword: &[u8]) -> bool
    ensures { result ≡ same_bytes keyword.now (map capital word.now) }
{
    if word.len() != keyword.len() {
        return false;
    }
    for (i, byte) in word.iter().enumerate() {
        if keyword[i] != capital(*byte) {
            return false;
        }
    }
    true
}

// The first keyword of a table that the word is.
fn first_keyword<'a>(table: &[(&str, Mark)], word: &[u8]) -> Front<'a>
    ensures { front_view result ≡ word_front (table_view table.now) word.now }
{
    for row in table {
        if is_keyword(word, row.0.as_bytes()) {
            return Front::Takes(word.len(), Symbol::Mark(row.1));
        }
    }
    Front::NoToken
}

/// The keyword that the word is; another is no token.
pub fn keyword_front<'a>(word: &[u8]) -> Front<'a>
    ensures { front_view result ≡ word_front (keywords First) word.now }
{
    first_keyword(&KEYWORDS, word)
}

// The first symbol of a table with which the bytes begin.
fn first_symbol<'a>(table: &[(&str, Mark)], bytes: &[u8]) -> Front<'a>
    ensures { front_view result ≡ symbol_front (table_view table.now) bytes.now }
{
    for row in table {
        if bytes.starts_with(row.0.as_bytes()) {
            return Front::Takes(row.0.len(), Symbol::Mark(row.1));
        }
    }
    Front::NoToken
}

/// The first symbol with which the bytes begin.
pub fn symbol_front<'a>(bytes: &[u8]) -> Front<'a>
    ensures { front_view result ≡ symbol_front symbols bytes.now }
{
    first_symbol(&SYMBOLS, bytes)
}
