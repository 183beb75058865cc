// The kind of a token.
ghost use Rattle.std.specs.Prelude.{◌≡◌, ℕ};
ghost use Rattle.expected_sql_tokens.specs.Kinds.{kind_for, kind_of, kind_view};
ghost use Rattle.sql_reader.specs.Symbols.{mark_token, token_view};
ghost use Rattle.sql_reader.specs.TokenKinds.{AnOperator, number_kind, token_kind};

use crate::kinds::SqlTokenKind;
use nq_model::Binary;
use sql_reader::{Mark, Symbol, Token, Whole};

// The kind of an operator.
fn operator_kind(operator: Binary) -> SqlTokenKind
    ensures { result ≡ kind_for (AnOperator operator) }
{
    match operator {
        Binary::Or => SqlTokenKind::Or,
        Binary::And => SqlTokenKind::And,
        Binary::Eq => SqlTokenKind::Equal,
        Binary::Ne => SqlTokenKind::Unequal,
        Binary::Lt => SqlTokenKind::Less,
        Binary::Le => SqlTokenKind::AtMost,
        Binary::Gt => SqlTokenKind::Greater,
        Binary::Ge => SqlTokenKind::AtLeast,
        Binary::Add => SqlTokenKind::Plus,
        Binary::Sub => SqlTokenKind::Minus,
        Binary::Mul => SqlTokenKind::Times,
    }
}

// The kind of a number.
fn whole_kind(number: Whole) -> SqlTokenKind
    ensures { result ≡ kind_for (number_kind number.value number.digits) }
{
    if number.value == 0 && number.digits == 1 {
        SqlTokenKind::Zero
    } else {
        SqlTokenKind::Number
    }
}

// The kind of a keyword or a symbol.
fn mark_kind(mark: Mark) -> SqlTokenKind
    ensures { (place : ℕ) → result ≡ kind_of (mark_token mark place) }
{
    match mark {
        Mark::Operator(operator) => operator_kind(operator),
        Mark::Truth(true) => SqlTokenKind::True,
        Mark::Truth(false) => SqlTokenKind::False,
        Mark::Opening => SqlTokenKind::Opening,
        Mark::Closing => SqlTokenKind::Closing,
        Mark::Comma => SqlTokenKind::Comma,
        Mark::Dot => SqlTokenKind::Dot,
        Mark::Semicolon => SqlTokenKind::Semicolon,
        Mark::With => SqlTokenKind::With,
        Mark::As => SqlTokenKind::As,
        Mark::Union => SqlTokenKind::UnionWord,
        Mark::All => SqlTokenKind::All,
        Mark::Select => SqlTokenKind::Select,
        Mark::From => SqlTokenKind::From,
        Mark::Where => SqlTokenKind::Where,
        Mark::RowNumber => SqlTokenKind::RowNumber,
        Mark::Over => SqlTokenKind::Over,
        Mark::Order => SqlTokenKind::Order,
        Mark::By => SqlTokenKind::By,
        Mark::Not => SqlTokenKind::Not,
        Mark::Exists => SqlTokenKind::Exists,
        Mark::Case => SqlTokenKind::Case,
        Mark::When => SqlTokenKind::When,
        Mark::Then => SqlTokenKind::Then,
        Mark::Else => SqlTokenKind::Else,
        Mark::Stop => SqlTokenKind::Stop,
        Mark::Count => SqlTokenKind::Count,
        Mark::Sum => SqlTokenKind::Sum,
        Mark::Coalesce => SqlTokenKind::Coalesce,
    }
}

/// The kind of a token, as the reader tells it.
#[tactic(auto, using(crate::proofs::KindFacts::kind_back))]
pub fn kind_of(token: Token<'_>) -> SqlTokenKind
    ensures is { result ≡ kind_of (token_view token.entry) }
    ensures read { kind_view result ≡ token_kind (token_view token.entry) }
{
    match token.symbol {
        Symbol::Number(number) => whole_kind(number),
        Symbol::Literal(_) => SqlTokenKind::Literal,
        Symbol::Name(_) => SqlTokenKind::Name,
        Symbol::Mark(mark) => mark_kind(mark),
        Symbol::End => SqlTokenKind::End,
    }
}
