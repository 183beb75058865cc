// A token before the sources of a SELECT.
ghost use Rattle.std.specs.Prelude.{◌∷◌, Some};
ghost use Rattle.sql_reader.specs.Parts.{begun};
ghost use Rattle.sql_reader.specs.Stacks.{forms};
ghost use Rattle.sql_reader.specs.States.{Forms, Leads, Turns, Withs};
ghost use Rattle.sql_reader.specs.Steps.{Item, On, Want, at_as, at_start, at_union, behind_with, named_item, start_select};
ghost use Rattle.sql_reader.specs.Symbols.{token_view};
ghost use Rattle.sql_reader.specs.Views.{name_view, selects_view, value_view};

use crate::form::Form;
use crate::lists::{Name, Ranged, Selects, Value, add_item, begin_select, no_selects};
use crate::moves::{named, wants};
use crate::stack::Stack;
use crate::state::Position;
use crate::token::{Mark, Symbol, Token};
use nq_model::{List, Memory};
use std::alloc::Global;

// A SELECT begins, behind these of its query.
fn select(
    alloc: Global,
    stack: &mut Stack,
    before: Selects,
    place: u64,
) -> Result<Option<Position>, Memory>
    ensures { (b : Withs) → Turns result b (forms stack.new.levels)
        (Some (On b (Item (begun (selects_view before) place) ∷ forms stack.old.levels) Want)) }
{
    let begun = begin_select(alloc, before, place);
    wants(stack, Form::Item { begun })
}

/// SELECT, behind these of its query.
pub fn start_select(
    alloc: Global,
    stack: &mut Stack,
    before: Selects,
    token: Token<'_>,
) -> Result<Option<Position>, Memory>
    ensures { (b : Withs) → Turns result b (forms stack.new.levels)
        (start_select b (forms stack.old.levels) (selects_view before) (token_view token.entry)) }
{
    match token.symbol {
        Symbol::Mark(Mark::Select) => select(alloc, stack, before, token.place),
        _ => Ok(None),
    }
}

/// The first token of a text: WITH or SELECT.
pub fn at_start(
    alloc: Global,
    stack: &mut Stack,
    token: Token<'_>,
) -> Result<Option<Position>, Memory>
    ensures { (b : Withs) → Turns result b (forms stack.new.levels)
        (at_start b (forms stack.old.levels) (token_view token.entry)) }
{
    match token.symbol {
        Symbol::Mark(Mark::With) => Ok(Some(Position::AtDef)),
        Symbol::Mark(Mark::Select) => select(alloc, stack, no_selects(alloc), token.place),
        _ => Ok(None),
    }
}

/// A comma or SELECT behind a WITH query.
pub fn behind_with(
    alloc: Global,
    stack: &mut Stack,
    token: Token<'_>,
) -> Result<Option<Position>, Memory>
    ensures { (b : Withs) → Turns result b (forms stack.new.levels)
        (behind_with b (forms stack.old.levels) (token_view token.entry)) }
{
    match token.symbol {
        Symbol::Mark(Mark::Comma) => Ok(Some(Position::AtDef)),
        Symbol::Mark(Mark::Select) => select(alloc, stack, no_selects(alloc), token.place),
        _ => Ok(None),
    }
}

/// ALL behind UNION.
pub fn at_union(before: Selects, token: Token<'_>) -> Option<Position>
    ensures { (b : Withs) (k : Forms)
        → Leads result b k (at_union (selects_view before) b k (token_view token.entry)) }
{
    match token.symbol {
        Symbol::Mark(Mark::All) => Some(Position::WantSelect { before }),
        _ => None,
    }
}

/// The name of an item behind AS.
pub fn at_as(
    alloc: Global,
    stack: &mut Stack,
    value: Value,
    token: Token<'_>,
) -> Result<Option<Position>, Memory>
    ensures { (b : Withs) → Turns result b (forms stack.new.levels)
        (at_as (value_view value) b (forms stack.old.levels) (token_view token.entry)) }
{
    match token.symbol {
        Symbol::Name(name) => {
            let name = named(alloc, token.place, name)?;
            named_item(alloc, stack, value, name)
        }
        _ => Ok(None),
    }
}

// The item is whole with its name.
fn named_item(
    alloc: Global,
    stack: &mut Stack,
    value: Value,
    name: Name,
) -> Result<Option<Position>, Memory>
    ensures { (b : Withs) → Turns result b (forms stack.new.levels)
        (named_item (forms stack.old.levels) b (value_view value) (name_view name)) }
{
    let Some(form) = stack.pop() else {
        return Ok(None);
    };
    match form {
        Form::Item { begun } => {
            let ranged = Ranged::Select(add_item(begun, value, name)?);
            let from = List::new(alloc);
            Ok(Some(Position::HaveItems { ranged, from }))
        }
        _ => Ok(None),
    }
}
