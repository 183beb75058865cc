// A token of a numbering, and AS behind it.
ghost use Rattle.sql_reader.specs.Stacks.{forms};
ghost use Rattle.sql_reader.specs.States.{Forms, Leads, Turns, Withs};
ghost use Rattle.sql_reader.specs.Steps.{at_order, at_over, at_row, at_row_close, at_row_open, at_value, first_key, in_over};
ghost use Rattle.sql_reader.specs.Symbols.{token_view};
ghost use Rattle.sql_reader.specs.Views.{value_view};

use crate::form::Form;
use crate::lists::{Value, no_keys, numbering};
use crate::moves::wants;
use crate::stack::Stack;
use crate::state::Position;
use crate::token::{Mark, Symbol, Token};
use nq_model::Memory;
use std::alloc::Global;

/// The `(` behind ROW_NUMBER.
pub fn at_row(token: Token<'_>) -> Option<Position>
    ensures { (b : Withs) (k : Forms) → Leads result b k (at_row b k (token_view token.entry)) }
{
    match token.symbol {
        Symbol::Mark(Mark::Opening) => Some(Position::AtRowOpen),
        _ => None,
    }
}

/// The `)` behind it.
pub fn at_row_open(token: Token<'_>) -> Option<Position>
    ensures { (b : Withs) (k : Forms)
        → Leads result b k (at_row_open b k (token_view token.entry)) }
{
    match token.symbol {
        Symbol::Mark(Mark::Closing) => Some(Position::AtRowClose),
        _ => None,
    }
}

/// OVER.
pub fn at_row_close(token: Token<'_>) -> Option<Position>
    ensures { (b : Withs) (k : Forms)
        → Leads result b k (at_row_close b k (token_view token.entry)) }
{
    match token.symbol {
        Symbol::Mark(Mark::Over) => Some(Position::AtOver),
        _ => None,
    }
}

/// The `(` behind OVER.
pub fn at_over(token: Token<'_>) -> Option<Position>
    ensures { (b : Withs) (k : Forms) → Leads result b k (at_over b k (token_view token.entry)) }
{
    match token.symbol {
        Symbol::Mark(Mark::Opening) => Some(Position::InOver),
        _ => None,
    }
}

/// ORDER, or the `)` of a numbering that has no keys.
pub fn in_over(alloc: Global, token: Token<'_>) -> Option<Position>
    ensures { (b : Withs) (k : Forms) → Leads result b k (in_over b k (token_view token.entry)) }
{
    match token.symbol {
        Symbol::Mark(Mark::Closing) => {
            let value = numbering(no_keys(alloc));
            Some(Position::AtValue { value })
        }
        Symbol::Mark(Mark::Order) => Some(Position::AtOrder),
        _ => None,
    }
}

/// BY behind ORDER.
pub fn at_order(
    alloc: Global,
    stack: &mut Stack,
    token: Token<'_>,
) -> Result<Option<Position>, Memory>
    ensures { (b : Withs) → Turns result b (forms stack.new.levels)
        (at_order b (forms stack.old.levels) (token_view token.entry)) }
{
    match token.symbol {
        Symbol::Mark(Mark::By) => first_key(alloc, stack),
        _ => Ok(None),
    }
}

// The first key of the item that the innermost form waits for.
fn first_key(alloc: Global, stack: &mut Stack) -> Result<Option<Position>, Memory>
    ensures { (b : Withs) → Turns result b (forms stack.new.levels)
        (first_key (forms stack.old.levels) b) }
{
    let Some(form) = stack.pop() else {
        return Ok(None);
    };
    match form {
        Form::Item { begun } => {
            let keys = no_keys(alloc);
            wants(stack, Form::OrderKey { keys, begun })
        }
        _ => Ok(None),
    }
}

/// AS behind a numbering.
pub fn at_value(value: Value, token: Token<'_>) -> Option<Position>
    ensures { (b : Withs) (k : Forms)
        → Leads result b k (at_value (value_view value) b k (token_view token.entry)) }
{
    match token.symbol {
        Symbol::Mark(Mark::As) => Some(Position::AtAs { value }),
        _ => None,
    }
}
