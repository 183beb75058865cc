// A token between the sources of a SELECT or a scalar query.
ghost use Rattle.std.specs.Prelude.{[]};
ghost use Rattle.sql_reader.specs.Stacks.{forms};
ghost use Rattle.sql_reader.specs.States.{Forms, Leads, Turns, Withs};
ghost use Rattle.sql_reader.specs.Steps.{at_source, at_source_as, at_source_name, comma_behind, from_behind, have_items};
ghost use Rattle.sql_reader.specs.Symbols.{token_view};
ghost use Rattle.sql_reader.specs.Views.{base_view, name_view, ranged_view};

use crate::extent::nothing;
use crate::form::Form;
use crate::lists::{Base, Name, Ranged, add_source};
use crate::moves::{named, wants};
use crate::queries::after_ranged;
use crate::stack::Stack;
use crate::state::Position;
use crate::token::{Mark, Symbol, Token};
use nq_model::{Label, List, Memory};
use sql_profile::Source;
use std::alloc::Global;

/// A token behind whole items or the head of a scalar query, or behind whole sources.
pub fn have_items(
    alloc: Global,
    base: &mut Base,
    stack: &mut Stack,
    ranged: Ranged,
    from: List<Source>,
    token: Token<'_>,
) -> Result<Option<Position>, Memory>
    ensures { Turns result (base_view base.new) (forms stack.new.levels)
        (have_items (ranged_view ranged) from (base_view base.old) (forms stack.old.levels)
        (token_view token.entry)) }
{
    match token.symbol {
        Symbol::Mark(Mark::Where) => wants(stack, Form::Where { ranged, from }),
        Symbol::Mark(Mark::Comma) => comma_behind(stack, ranged, from),
        Symbol::Mark(Mark::From) => Ok(from_behind(ranged, from)),
        _ => after_ranged(alloc, base, stack, ranged, from, None, nothing(), token),
    }
}

// A comma: another item, or another source behind sources.
fn comma_behind(
    stack: &mut Stack,
    ranged: Ranged,
    from: List<Source>,
) -> Result<Option<Position>, Memory>
    ensures { (b : Withs) → Turns result b (forms stack.new.levels)
        (comma_behind from (ranged_view ranged) b (forms stack.old.levels)) }
{
    if from.is_empty() {
        another_item(stack, ranged)
    } else {
        Ok(Some(Position::AtSource { ranged, from }))
    }
}

// A comma behind items: another of them.
fn another_item(stack: &mut Stack, ranged: Ranged) -> Result<Option<Position>, Memory>
    ensures { (b : Withs) → Turns result b (forms stack.new.levels)
        (comma_behind [] (ranged_view ranged) b (forms stack.old.levels)) }
{
    match ranged {
        Ranged::Select(begun) => wants(stack, Form::Item { begun }),
        Ranged::Scalar(_) => Ok(None),
    }
}

// FROM, behind items or the head of a scalar query.
fn from_behind(ranged: Ranged, from: List<Source>) -> Option<Position>
    ensures { (b : Withs) (k : Forms)
        → Leads result b k (from_behind from (ranged_view ranged) b k) }
{
    if from.is_empty() {
        Some(Position::AtSource { ranged, from })
    } else {
        None
    }
}

/// The name of a table behind FROM or a comma.
pub fn at_source(
    alloc: Global,
    ranged: Ranged,
    from: List<Source>,
    token: Token<'_>,
) -> Result<Option<Position>, Memory>
    ensures { (b : Withs) (k : Forms)
        → Turns result b k (at_source (ranged_view ranged) from b k (token_view token.entry)) }
{
    match token.symbol {
        Symbol::Name(name) => {
            let table = named(alloc, token.place, name)?;
            Ok(Some(Position::AtSourceName {
                ranged,
                from,
                table,
            }))
        }
        _ => Ok(None),
    }
}

/// AS behind the name of a table.
pub fn at_table(
    ranged: Ranged,
    from: List<Source>,
    table: Name,
    token: Token<'_>,
) -> Option<Position>
    ensures { (b : Withs) (k : Forms)
        → Leads result b k (at_source_name (ranged_view ranged) from (name_view table) b k
        (token_view token.entry)) }
{
    match token.symbol {
        Symbol::Mark(Mark::As) => Some(Position::AtSourceAs {
            ranged,
            from,
            table,
        }),
        _ => None,
    }
}

/// The alias of a source.
pub fn at_alias(
    alloc: Global,
    ranged: Ranged,
    from: List<Source>,
    table: Name,
    token: Token<'_>,
) -> Result<Option<Position>, Memory>
    ensures { (b : Withs) (k : Forms)
        → Turns result b k (at_source_as (ranged_view ranged) from (name_view table) b k
        (token_view token.entry)) }
{
    match token.symbol {
        Symbol::Name(alias) => {
            let alias = Label::from_str(alloc, alias)?;
            let from = add_source(from, table, alias)?;
            Ok(Some(Position::HaveItems { ranged, from }))
        }
        _ => Ok(None),
    }
}
