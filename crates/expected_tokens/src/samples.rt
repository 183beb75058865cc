// A token of each kind.
ghost use Rattle.std.specs.Prelude.{◌≡◌};
ghost use Rattle.expected_tokens.specs.Kinds.{has_tokens, sample};
ghost use Rattle.nq_parser.specs.Editions.{edition_view};
ghost use Rattle.query_syntax.specs.Symbols.{token_view};

use crate::kinds::TokenKind;
use nq_model::Binary;
use nq_parser::Edition;
use query_syntax::{Operator, Symbol, Token, Whole};

/// A token of the kind, at the beginning of a text.
pub(crate) fn sample(kind: TokenKind) -> Token<'static>
    ensures { token_view result ≡ sample kind }
{
    let symbol = match kind {
        TokenKind::For => Symbol::Word("for"),
        TokenKind::Where => Symbol::Word("where"),
        TokenKind::If => Symbol::Word("if"),
        TokenKind::Then => Symbol::Word("then"),
        TokenKind::Else => Symbol::Word("else"),
        TokenKind::Fun => Symbol::Word("fun"),
        TokenKind::Let => Symbol::Word("let"),
        TokenKind::Table => Symbol::Word("table"),
        TokenKind::Empty => Symbol::Word("empty"),
        TokenKind::Count => Symbol::Word("count"),
        TokenKind::Sum => Symbol::Word("sum"),
        TokenKind::True => Symbol::Word("true"),
        TokenKind::False => Symbol::Word("false"),
        TokenKind::Int => Symbol::Word("int"),
        TokenKind::Bool => Symbol::Word("bool"),
        TokenKind::Text => Symbol::Word("text"),
        TokenKind::Name => Symbol::Word("x"),
        TokenKind::Number => Symbol::Number(Whole {
            value: 1,
            digits: 1,
        }),
        TokenKind::Literal => Symbol::Literal(""),
        TokenKind::Union => Symbol::Operator(Operator::Union),
        TokenKind::Or => Symbol::Operator(Operator::Of(Binary::Or)),
        TokenKind::And => Symbol::Operator(Operator::Of(Binary::And)),
        TokenKind::Equal => Symbol::Operator(Operator::Of(Binary::Eq)),
        TokenKind::Unequal => Symbol::Operator(Operator::Of(Binary::Ne)),
        TokenKind::Less => Symbol::Operator(Operator::Of(Binary::Lt)),
        TokenKind::AtMost => Symbol::Operator(Operator::Of(Binary::Le)),
        TokenKind::Greater => Symbol::Operator(Operator::Of(Binary::Gt)),
        TokenKind::AtLeast => Symbol::Operator(Operator::Of(Binary::Ge)),
        TokenKind::Plus => Symbol::Operator(Operator::Of(Binary::Add)),
        TokenKind::Minus => Symbol::Operator(Operator::Of(Binary::Sub)),
        TokenKind::Times => Symbol::Operator(Operator::Of(Binary::Mul)),
        TokenKind::Opening => Symbol::Opening,
        TokenKind::Closing => Symbol::Closing,
        TokenKind::OpeningBag => Symbol::OpeningBag,
        TokenKind::ClosingBag => Symbol::ClosingBag,
        TokenKind::Comma => Symbol::Comma,
        TokenKind::Colon => Symbol::Colon,
        TokenKind::Semicolon => Symbol::Semicolon,
        TokenKind::Dot => Symbol::Dot,
        TokenKind::Assign => Symbol::Assign,
        TokenKind::From => Symbol::From,
        TokenKind::Arrow => Symbol::Arrow,
        TokenKind::Bang => Symbol::Bang,
        TokenKind::End => Symbol::End,
    };
    Token { place: 0, symbol }
}

/// Whether any word is of the kind: `count` and `sum` are names in the first edition.
pub(crate) fn has_tokens(edition: Edition, kind: TokenKind) -> bool
    ensures { result ≡ has_tokens (edition_view edition) kind }
{
    match edition {
        Edition::First => match kind {
            TokenKind::Count | TokenKind::Sum => false,
            _ => true,
        },
        Edition::Second => true,
    }
}
