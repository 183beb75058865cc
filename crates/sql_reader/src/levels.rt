// How strongly operators and tokens bind.
ghost use Rattle.std.specs.Prelude.{◌≡◌};
ghost use Rattle.sql_profile.specs.Grammar.{left_level, level};
ghost use Rattle.sql_profile.specs.Machine.{binds};
ghost use Rattle.sql_reader.specs.Symbols.{token_view};

use crate::token::{Mark, Symbol, Token};
use nq_model::Binary;

/// The level of an operator; on its right it asks for the next level.
pub fn level(op: Binary) -> u64
    ensures { result ≡ level op }
{
    match op {
        Binary::Or => 1,
        Binary::And => 2,
        Binary::Eq | Binary::Ne | Binary::Lt | Binary::Le | Binary::Gt | Binary::Ge => 4,
        Binary::Add | Binary::Sub => 5,
        Binary::Mul => 6,
    }
}

/// What an operator asks for on its left: its own level, but comparisons do not chain.
pub fn left_level(op: Binary) -> u64
    ensures { result ≡ left_level op }
{
    match level(op) {
        4 => 5,
        same => same,
    }
}

/// How strongly a token takes what stands before it, 0 where it takes nothing.
pub fn binds(token: Token<'_>) -> u64
    ensures { result ≡ binds (token_view token.entry) }
{
    match token.symbol {
        Symbol::Mark(Mark::Operator(op)) => level(op),
        _ => 0,
    }
}
