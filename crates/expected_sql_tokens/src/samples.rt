// A token of each kind.
ghost use Rattle.std.specs.Prelude.{◌≡◌};
ghost use Rattle.expected_sql_tokens.specs.Kinds.{sample};
ghost use Rattle.sql_reader.specs.Symbols.{token_view};

use crate::kinds::SqlTokenKind;
use nq_model::Binary;
use sql_reader::{Mark, Symbol, Token, Whole};

/// A token of the kind, at the beginning of a text.
pub(crate) fn sample(kind: SqlTokenKind) -> Token<'static>
    ensures { token_view result ≡ sample kind }
{
    let symbol = match kind {
        SqlTokenKind::With => Symbol::Mark(Mark::With),
        SqlTokenKind::As => Symbol::Mark(Mark::As),
        SqlTokenKind::UnionWord => Symbol::Mark(Mark::Union),
        SqlTokenKind::All => Symbol::Mark(Mark::All),
        SqlTokenKind::Select => Symbol::Mark(Mark::Select),
        SqlTokenKind::From => Symbol::Mark(Mark::From),
        SqlTokenKind::Where => Symbol::Mark(Mark::Where),
        SqlTokenKind::RowNumber => Symbol::Mark(Mark::RowNumber),
        SqlTokenKind::Over => Symbol::Mark(Mark::Over),
        SqlTokenKind::Order => Symbol::Mark(Mark::Order),
        SqlTokenKind::By => Symbol::Mark(Mark::By),
        SqlTokenKind::Not => Symbol::Mark(Mark::Not),
        SqlTokenKind::Exists => Symbol::Mark(Mark::Exists),
        SqlTokenKind::Case => Symbol::Mark(Mark::Case),
        SqlTokenKind::When => Symbol::Mark(Mark::When),
        SqlTokenKind::Then => Symbol::Mark(Mark::Then),
        SqlTokenKind::Else => Symbol::Mark(Mark::Else),
        SqlTokenKind::Stop => Symbol::Mark(Mark::Stop),
        SqlTokenKind::Count => Symbol::Mark(Mark::Count),
        SqlTokenKind::Sum => Symbol::Mark(Mark::Sum),
        SqlTokenKind::Coalesce => Symbol::Mark(Mark::Coalesce),
        SqlTokenKind::True => Symbol::Mark(Mark::Truth(true)),
        SqlTokenKind::False => Symbol::Mark(Mark::Truth(false)),
        SqlTokenKind::Zero => Symbol::Number(Whole {
            value: 0,
            digits: 1,
        }),
        SqlTokenKind::Number => Symbol::Number(Whole {
            value: 1,
            digits: 1,
        }),
        SqlTokenKind::Literal => Symbol::Literal(""),
        SqlTokenKind::Name => Symbol::Name("x"),
        SqlTokenKind::And => Symbol::Mark(Mark::Operator(Binary::And)),
        SqlTokenKind::Or => Symbol::Mark(Mark::Operator(Binary::Or)),
        SqlTokenKind::Equal => Symbol::Mark(Mark::Operator(Binary::Eq)),
        SqlTokenKind::Unequal => Symbol::Mark(Mark::Operator(Binary::Ne)),
        SqlTokenKind::Less => Symbol::Mark(Mark::Operator(Binary::Lt)),
        SqlTokenKind::AtMost => Symbol::Mark(Mark::Operator(Binary::Le)),
        SqlTokenKind::Greater => Symbol::Mark(Mark::Operator(Binary::Gt)),
        SqlTokenKind::AtLeast => Symbol::Mark(Mark::Operator(Binary::Ge)),
        SqlTokenKind::Plus => Symbol::Mark(Mark::Operator(Binary::Add)),
        SqlTokenKind::Minus => Symbol::Mark(Mark::Operator(Binary::Sub)),
        SqlTokenKind::Times => Symbol::Mark(Mark::Operator(Binary::Mul)),
        SqlTokenKind::Opening => Symbol::Mark(Mark::Opening),
        SqlTokenKind::Closing => Symbol::Mark(Mark::Closing),
        SqlTokenKind::Comma => Symbol::Mark(Mark::Comma),
        SqlTokenKind::Dot => Symbol::Mark(Mark::Dot),
        SqlTokenKind::Semicolon => Symbol::Mark(Mark::Semicolon),
        SqlTokenKind::End => Symbol::End,
    };
    Token { place: 0, symbol }
}
