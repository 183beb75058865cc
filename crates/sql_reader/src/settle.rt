// Forms that end before a token.
ghost use Rattle.std.specs.Prelude.{◌≡◌, IfOk, length, ◌+◌, OnSome};
ghost use Rattle.sql_reader.specs.Parts.{Base};
ghost use Rattle.sql_reader.specs.Settling.{SameBehind, Taken, top_ends};
ghost use Rattle.sql_reader.specs.Stacks.{form_view, forms};
ghost use Rattle.sql_reader.specs.Steps.{ends, joined};
ghost use Rattle.sql_reader.specs.Symbols.{token_view};
ghost use Rattle.sql_reader.specs.Views.{part_view};

use crate::form::Form;
use crate::levels::{binds, level};
use crate::part::{Part, binary, minus, negation};
use crate::stack::Stack;
use crate::token::Token;
use nq_model::Memory;
use std::alloc::Global;

// Whether an unfinished form, which is open to the right, ends before the token.
fn ends(form: &Form, token: Token<'_>) -> bool
    ensures { result ≡ ends (form_view form.now) (token_view token.entry) }
{
    match form {
        Form::Minus { .. } => true,
        Form::Not { .. } => binds(token) <= 2,
        Form::Right { op, .. } => binds(token) <= level(*op),
        Form::Paren { .. }
        | Form::When { .. }
        | Form::Then { .. }
        | Form::Else { .. }
        | Form::Item { .. }
        | Form::OrderKey { .. }
        | Form::Where { .. }
        | Form::NotExists { .. }
        | Form::Sum { .. } => false,
    }
}

// The whole form that a form with its last part is.
fn joined(alloc: Global, form: Form, last: Part) -> Result<Part, Memory>
    ensures { IfOk result (λ whole. part_view whole ≡ joined (form_view form) (part_view last)) }
{
    match form {
        Form::Minus { place } => minus(alloc, place, last),
        Form::Not { place } => negation(alloc, place, last),
        Form::Right { left, place, op } => binary(alloc, left, place, op, last),
        Form::Paren { .. }
        | Form::When { .. }
        | Form::Then { .. }
        | Form::Else { .. }
        | Form::Item { .. }
        | Form::OrderKey { .. }
        | Form::Where { .. }
        | Form::NotExists { .. }
        | Form::Sum { .. } => Ok(last),
    }
}

// Whether the innermost form ends before the token.
fn top_ends(stack: &Stack, token: Token<'_>) -> bool
    ensures { result ≡ top_ends (forms stack.now.levels) (token_view token.entry) }
{
    match stack.top() {
        Some(form) => ends(form, token),
        None => false,
    }
}

// The innermost form, where it ends before the token.
fn take_ending(stack: &mut Stack, token: Token<'_>) -> Option<Form>
    ensures taken { Taken result (forms stack.old.levels) (forms stack.new.levels)
        (token_view token.entry) }
    ensures shorter { OnSome result (length stack.new.levels + 1 ≡ length stack.old.levels) }
{
    if top_ends(stack, token) {
        stack.pop()
    } else {
        None
    }
}

/// Joins the forms that end before the token with the expression.
pub fn settle(
    alloc: Global,
    stack: &mut Stack,
    first: Part,
    token: Token<'_>,
) -> Result<Part, Memory>
    ensures { IfOk result (λ whole. (b : Base)
        → SameBehind b (forms stack.old.levels) (part_view first) (forms stack.new.levels)
        (part_view whole) (token_view token.entry)) }
{
    let mut part = first;
    while let Some(form) = take_ending(stack, token) {
        part = joined(alloc, form, part)?;
    }
    Ok(part)
}
