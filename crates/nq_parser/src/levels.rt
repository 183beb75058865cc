// How strongly operators and forms bind.
ghost use Rattle.std.specs.Prelude.{◌≡◌};
ghost use Rattle.nq_model.specs.QueryGrammar.{level, left_level};
ghost use Rattle.nq_parser.specs.Forms.{form_view};
ghost use Rattle.nq_parser.specs.Machine.{binds, ends, level_of};
ghost use Rattle.query_syntax.specs.Symbols.{operator_view, token_view};
ghost use Rattle.query_syntax.specs.Trees.{syntax_view};

use crate::form::Form;
use nq_model::Binary;
use query_syntax::{Operator, Symbol, Syntax, Token};

/// The level of an operator; on its right it asks for the next level.
pub fn level(op: Operator) -> u64
    ensures { result ≡ level (operator_view op) }
{
    match op {
        Operator::Union => 2,
        Operator::Of(Binary::Or) => 3,
        Operator::Of(Binary::And) => 4,
        Operator::Of(Binary::Eq | Binary::Ne | Binary::Lt | Binary::Le | Binary::Gt | Binary::Ge) =>
            5,
        Operator::Of(Binary::Add | Binary::Sub) => 6,
        Operator::Of(Binary::Mul) => 7,
    }
}

/// What an operator asks for on its left: its own level, but comparisons do not chain.
pub fn left_level(op: Operator) -> u64
    ensures { result ≡ left_level (operator_view op) }
{
    match level(op) {
        5 => 6,
        same => same,
    }
}

/// How strongly a token takes what stands before it, 0 where it takes nothing.
pub fn binds(token: Token<'_>) -> u64
    ensures { result ≡ binds (token_view token.entry) }
{
    match token.symbol {
        Symbol::Operator(op) => level(op),
        Symbol::Opening | Symbol::Dot => 9,
        _ => 0,
    }
}

/// The level at which an expression may stand.
pub fn level_of(syntax: &Syntax) -> u64
    ensures { result ≡ level_of (syntax_view syntax.now) }
{
    match syntax {
        Syntax::Let { .. } => 0,
        Syntax::For { .. } | Syntax::Where { .. } | Syntax::If { .. } | Syntax::Fun { .. } => 1,
        Syntax::Infix { op, .. } => level(*op),
        Syntax::Prefix { .. } => 8,
        Syntax::Apply { .. } | Syntax::Field { .. } => 9,
        _ => 10,
    }
}

/// Whether an unfinished form, which is open to the right, ends before the token.
pub fn ends(form: &Form, token: Token<'_>) -> bool
    ensures { result ≡ ends (form_view form.now) (token_view token.entry) }
{
    match form {
        Form::ForBody { .. } | Form::Guarded { .. } | Form::Else { .. } | Form::FunBody { .. } =>
            binds(token) <= 1,
        Form::LetBody { .. } => binds(token) == 0,
        Form::Prefix { .. } => binds(token) <= 7,
        Form::Right { op, .. } => binds(token) <= level(*op),
        Form::Paren { .. }
        | Form::Bag { .. }
        | Form::Aggregate { .. }
        | Form::Source { .. }
        | Form::Test { .. }
        | Form::If { .. }
        | Form::Then { .. }
        | Form::LetValue { .. }
        | Form::Argument { .. }
        | Form::Field { .. } => false,
    }
}
