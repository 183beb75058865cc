// What a word is where a variable might stand.
ghost use Rattle.std.specs.Prelude.{◌≡◌};
ghost use Rattle.nq_model.specs.QueryGrammar.{kind, later_kind};
ghost use Rattle.nq_parser.specs.Editions.{edition_view};
ghost use Rattle.nq_parser.specs.Words.{kind_view};

use crate::edition::Edition;
use nq_model::ColumnType;
use query_syntax::Aggregate;

/// What a word is where a variable might stand; only a name may be one.
#[derive(Clone, Copy)]
pub enum WordKind {
    For,
    Where,
    If,
    Then,
    Else,
    Fun,
    Let,
    Table,
    Aggregate(Aggregate),
    Truth(bool),
    Base(ColumnType),
    Name,
}

/// What a word is.
pub fn kind_of(edition: Edition, word: &str) -> WordKind
    ensures { kind_view result ≡ kind (edition_view edition) word.now }
{
    match word {
        "for" => WordKind::For,
        "where" => WordKind::Where,
        "if" => WordKind::If,
        "then" => WordKind::Then,
        "else" => WordKind::Else,
        "fun" => WordKind::Fun,
        "let" => WordKind::Let,
        "table" => WordKind::Table,
        "empty" => WordKind::Aggregate(Aggregate::Emptiness),
        "true" => WordKind::Truth(true),
        "false" => WordKind::Truth(false),
        "int" => WordKind::Base(ColumnType::Int),
        "bool" => WordKind::Base(ColumnType::Bool),
        "text" => WordKind::Base(ColumnType::Text),
        _ => later_kind(edition, word),
    }
}

// What an edition makes of a word that is not reserved in the first.
fn later_kind(edition: Edition, word: &str) -> WordKind
    ensures { kind_view result ≡ later_kind (edition_view edition) word.now }
{
    match edition {
        Edition::First => WordKind::Name,
        Edition::Second => match word {
            "count" => WordKind::Aggregate(Aggregate::Count),
            "sum" => WordKind::Aggregate(Aggregate::Sum),
            _ => WordKind::Name,
        },
    }
}
