// A token behind a whole expression.
ghost use Rattle.std.specs.Prelude.{ℕ};
ghost use Rattle.sql_profile.specs.Tokens.{Oper};
ghost use Rattle.sql_reader.specs.Stacks.{form_view, forms};
ghost use Rattle.sql_reader.specs.States.{Forms, Leads, Turns, Withs};
ghost use Rattle.sql_reader.specs.Steps.{Else, Item, OrderKey, Paren, Sum, Then, When, Where, after, after_key, behind, behind_top, shift};
ghost use Rattle.sql_reader.specs.Symbols.{token_view};
ghost use Rattle.sql_reader.specs.Views.{base_view, begun_view, keys_view, part_view, ranged_view};

use crate::form::Form;
use crate::levels::left_level;
use crate::lists::{Base, Begun, Keys, Ranged, add_key, numbering, plain, summing};
use crate::moves::wants;
use crate::part::{Part, choice, in_parens};
use crate::queries::after_ranged;
use crate::settle::settle;
use crate::stack::Stack;
use crate::state::{Position, Tail};
use crate::token::{Mark, Symbol, Token};
use nq_model::{Binary, List, Memory};
use sql_profile::Source;
use std::alloc::Global;

/// A token behind an expression: forms that are open to the right end before it, and another goes
/// on.
pub fn after(
    alloc: Global,
    base: &mut Base,
    stack: &mut Stack,
    part: Part,
    token: Token<'_>,
) -> Result<Option<Position>, Memory>
    ensures { Turns result (base_view base.new) (forms stack.new.levels)
        (after (base_view base.old) (forms stack.old.levels) (part_view part)
        (token_view token.entry)) }
{
    let part = settle(alloc, stack, part, token)?;
    shift(alloc, base, stack, part, token)
}

// A token behind an expression that no form around takes for whole.
fn shift(
    alloc: Global,
    base: &mut Base,
    stack: &mut Stack,
    part: Part,
    token: Token<'_>,
) -> Result<Option<Position>, Memory>
    ensures { Turns result (base_view base.new) (forms stack.new.levels)
        (shift (base_view base.old) (forms stack.old.levels) (part_view part)
        (token_view token.entry)) }
{
    match token.symbol {
        Symbol::Mark(Mark::Operator(op)) => shift_operator(stack, part, token.place, op),
        _ => behind_top(alloc, base, stack, part, token),
    }
}

// An operator takes the expression, where it may stand on its left.
fn shift_operator(
    stack: &mut Stack,
    left: Part,
    place: u64,
    op: Binary,
) -> Result<Option<Position>, Memory>
    ensures { (b : Withs) → Turns result b (forms stack.new.levels)
        (shift b (forms stack.old.levels) (part_view left) (Oper place op)) }
{
    if left_level(op) <= left.level {
        wants(stack, Form::Right { left, place, op })
    } else {
        Ok(None)
    }
}

// A token that is no operator, behind the expression that the innermost form stands round.
fn behind_top(
    alloc: Global,
    base: &mut Base,
    stack: &mut Stack,
    part: Part,
    token: Token<'_>,
) -> Result<Option<Position>, Memory>
    ensures { Turns result (base_view base.new) (forms stack.new.levels)
        (behind_top (base_view base.old) (forms stack.old.levels) (part_view part)
        (token_view token.entry)) }
{
    match stack.pop() {
        Some(form) => behind(alloc, base, stack, form, part, token),
        None => Ok(None),
    }
}

fn behind(
    alloc: Global,
    base: &mut Base,
    stack: &mut Stack,
    form: Form,
    part: Part,
    token: Token<'_>,
) -> Result<Option<Position>, Memory>
    ensures { Turns result (base_view base.new) (forms stack.new.levels)
        (behind (form_view form) (base_view base.old) (forms stack.old.levels) (part_view part)
        (token_view token.entry)) }
{
    match form {
        Form::Paren { .. } => behind_paren(part, token),
        Form::When { place } => behind_when(stack, place, part, token),
        Form::Then { place, test } => behind_then(stack, place, test, part, token),
        Form::Else { place, test, yes } => behind_else(alloc, place, test, yes, part, token),
        Form::Item { begun } => behind_item(stack, begun, part, token),
        Form::OrderKey { keys, begun } => behind_key(stack, keys, begun, part, token),
        Form::Where { ranged, from } => behind_where(alloc, base, stack, ranged, from, part, token),
        Form::Sum { place } => Ok(behind_sum(place, part, token)),
        Form::Minus { .. } | Form::Not { .. } | Form::Right { .. } | Form::NotExists { .. } => Ok(
            None,
        ),
    }
}

// The `)` of parentheses.
fn behind_paren(part: Part, token: Token<'_>) -> Result<Option<Position>, Memory>
    ensures { (b : Withs) (k : Forms) (p : ℕ)
        → Turns result b k (behind (Paren p) b k (part_view part) (token_view token.entry)) }
{
    match token.symbol {
        Symbol::Mark(Mark::Closing) => {
            let part = in_parens(part)?;
            Ok(Some(Position::Have { part }))
        }
        _ => Ok(None),
    }
}

// THEN behind the test of a CASE.
fn behind_when(
    stack: &mut Stack,
    place: u64,
    test: Part,
    token: Token<'_>,
) -> Result<Option<Position>, Memory>
    ensures { (b : Withs) → Turns result b (forms stack.new.levels)
        (behind (When place) b (forms stack.old.levels) (part_view test) (token_view token.entry)) }
{
    match token.symbol {
        Symbol::Mark(Mark::Then) => wants(stack, Form::Then { place, test }),
        _ => Ok(None),
    }
}

// ELSE behind the first arm of a CASE.
fn behind_then(
    stack: &mut Stack,
    place: u64,
    test: Part,
    yes: Part,
    token: Token<'_>,
) -> Result<Option<Position>, Memory>
    ensures { (b : Withs) → Turns result b (forms stack.new.levels)
        (behind (Then place (part_view test)) b (forms stack.old.levels) (part_view yes)
        (token_view token.entry)) }
{
    match token.symbol {
        Symbol::Mark(Mark::Else) => wants(stack, Form::Else { place, test, yes }),
        _ => Ok(None),
    }
}

// END behind the second arm of a CASE.
fn behind_else(
    alloc: Global,
    place: u64,
    test: Part,
    yes: Part,
    no: Part,
    token: Token<'_>,
) -> Result<Option<Position>, Memory>
    ensures { (b : Withs) (k : Forms)
        → Turns result b k (behind (Else place (part_view test) (part_view yes)) b k (part_view no)
        (token_view token.entry)) }
{
    match token.symbol {
        Symbol::Mark(Mark::Stop) => {
            let part = choice(alloc, place, test, yes, no)?;
            Ok(Some(Position::Have { part }))
        }
        _ => Ok(None),
    }
}

// AS behind the expression of an item.
fn behind_item(
    stack: &mut Stack,
    begun: Begun,
    part: Part,
    token: Token<'_>,
) -> Result<Option<Position>, Memory>
    ensures { (b : Withs) → Turns result b (forms stack.new.levels)
        (behind (Item (begun_view begun)) b (forms stack.old.levels) (part_view part)
        (token_view token.entry)) }
{
    match token.symbol {
        Symbol::Mark(Mark::As) => {
            stack.push(Form::Item { begun })?;
            let value = plain(part);
            Ok(Some(Position::AtAs { value }))
        }
        _ => Ok(None),
    }
}

// A token behind an order key.
fn behind_key(
    stack: &mut Stack,
    keys: Keys,
    begun: Begun,
    part: Part,
    token: Token<'_>,
) -> Result<Option<Position>, Memory>
    ensures { (b : Withs) → Turns result b (forms stack.new.levels)
        (behind (OrderKey (keys_view keys) (begun_view begun)) b (forms stack.old.levels)
        (part_view part) (token_view token.entry)) }
{
    let keys = add_key(keys, part)?;
    after_key(stack, keys, begun, token)
}

// A comma behind an order key, or the `)` behind the last.
fn after_key(
    stack: &mut Stack,
    keys: Keys,
    begun: Begun,
    token: Token<'_>,
) -> Result<Option<Position>, Memory>
    ensures { (b : Withs) → Turns result b (forms stack.new.levels)
        (after_key b (forms stack.old.levels) (keys_view keys) (begun_view begun)
        (token_view token.entry)) }
{
    match token.symbol {
        Symbol::Mark(Mark::Comma) => wants(stack, Form::OrderKey { keys, begun }),
        Symbol::Mark(Mark::Closing) => {
            stack.push(Form::Item { begun })?;
            let value = numbering(keys);
            Ok(Some(Position::AtValue { value }))
        }
        _ => Ok(None),
    }
}

// A token behind what a SELECT or a scalar query keeps.
fn behind_where(
    alloc: Global,
    base: &mut Base,
    stack: &mut Stack,
    ranged: Ranged,
    from: List<Source>,
    part: Part,
    token: Token<'_>,
) -> Result<Option<Position>, Memory>
    ensures { Turns result (base_view base.new) (forms stack.new.levels)
        (behind (Where (ranged_view ranged) from) (base_view base.old) (forms stack.old.levels)
        (part_view part) (token_view token.entry)) }
{
    let kept = part.extent;
    let keep = Some(Box::into_inner(part.expr));
    after_ranged(alloc, base, stack, ranged, from, keep, kept, token)
}

// The `)` behind a summed expression.
fn behind_sum(place: u64, part: Part, token: Token<'_>) -> Option<Position>
    ensures { (b : Withs) (k : Forms)
        → Leads result b k (behind (Sum place) b k (part_view part) (token_view token.entry)) }
{
    match token.symbol {
        Symbol::Mark(Mark::Closing) => Some(Position::AtTail {
            scalar: summing(place, part),
            tail: Tail::Close,
        }),
        _ => None,
    }
}
