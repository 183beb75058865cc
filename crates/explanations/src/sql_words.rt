// What is said of kinds of tokens of SQL texts, and of the tokens of one.
ghost use Rattle.std.specs.Prelude.{◌≡◌, [], map};
ghost use Rattle.explanations.specs.SqlWords.{name_at, name_of, sql_around, sql_kind_words};
ghost use Rattle.explanations.specs.SqlWords.{sql_token_words};
ghost use Rattle.explanations.specs.Words.{around_view};
ghost use Rattle.sql_reader.specs.Symbols.{token_view};

use crate::words::Around;
use expected_sql_tokens::{SqlTokenKind, kind_of};
use sql_reader::{Symbol, Token};

/// What is said of a kind of tokens.
pub(crate) fn sql_kind_words(kind: SqlTokenKind) -> &'static str
    ensures { result.now ≡ sql_kind_words kind }
{
    match kind {
        SqlTokenKind::With => "WITH",
        SqlTokenKind::As => "AS",
        SqlTokenKind::UnionWord => "UNION",
        SqlTokenKind::All => "ALL",
        SqlTokenKind::Select => "SELECT",
        SqlTokenKind::From => "FROM",
        SqlTokenKind::Where => "WHERE",
        SqlTokenKind::RowNumber => "ROW_NUMBER",
        SqlTokenKind::Over => "OVER",
        SqlTokenKind::Order => "ORDER",
        SqlTokenKind::By => "BY",
        SqlTokenKind::Not => "NOT",
        SqlTokenKind::Exists => "EXISTS",
        SqlTokenKind::Case => "CASE",
        SqlTokenKind::When => "WHEN",
        SqlTokenKind::Then => "THEN",
        SqlTokenKind::Else => "ELSE",
        SqlTokenKind::Stop => "END",
        SqlTokenKind::Count => "COUNT",
        SqlTokenKind::Sum => "SUM",
        SqlTokenKind::Coalesce => "COALESCE",
        SqlTokenKind::True => "TRUE",
        SqlTokenKind::False => "FALSE",
        SqlTokenKind::Zero => "0",
        SqlTokenKind::Number => "a number",
        SqlTokenKind::Literal => "a text in single quotes",
        SqlTokenKind::Name => "a name in double quotes",
        SqlTokenKind::And => "AND",
        SqlTokenKind::Or => "OR",
        SqlTokenKind::Equal => "=",
        SqlTokenKind::Unequal => "<>",
        SqlTokenKind::Less => "<",
        SqlTokenKind::AtMost => "<=",
        SqlTokenKind::Greater => ">",
        SqlTokenKind::AtLeast => ">=",
        SqlTokenKind::Plus => "+",
        SqlTokenKind::Minus => "-",
        SqlTokenKind::Times => "*",
        SqlTokenKind::Opening => "(",
        SqlTokenKind::Closing => ")",
        SqlTokenKind::Comma => "a comma",
        SqlTokenKind::Dot => "a dot",
        SqlTokenKind::Semicolon => "a semicolon",
        SqlTokenKind::End => "the end of the text",
    }
}

// What is said of a token: there a `0` is a number like any other.
fn token_words(token: Token<'_>) -> &'static str
    ensures { result.now ≡ sql_token_words (token_view token.entry) }
{
    match kind_of(token) {
        SqlTokenKind::Zero => sql_kind_words(SqlTokenKind::Number),
        kind => sql_kind_words(kind),
    }
}

/// The words of the first token at a place, and of the one before it; empty where there is none.
#[tactic(auto, unfolding(crate::specs::SqlWords::sql_around))]
pub(crate) fn sql_words_around(tokens: &[Token<'_>], place: u64) -> Around<'static>
    ensures { around_view result ≡ sql_around place (map token_view tokens.now) }
{
    let mut before = "";
    for token in tokens {
        if token.place == place {
            return Around {
                before,
                found: token_words(*token),
            };
        }
        before = token_words(*token);
    }
    Around { before, found: "" }
}

// The name that a token is; empty where it is none.
fn name_of<'a>(token: Token<'a>) -> &'a str
    ensures { result.now ≡ name_of (token_view token.entry) }
{
    match token.symbol {
        Symbol::Name(name) => name,
        _ => "",
    }
}

/// The name that the first token at a place is; empty where it is none.
pub(crate) fn name_at<'a>(tokens: &[Token<'a>], place: u64) -> &'a str
    ensures { result.now ≡ name_at place (map token_view tokens.now) }
{
    for token in tokens {
        if token.place == place {
            return name_of(*token);
        }
    }
    ""
}
