// A token where one certain token has to come.
ghost use Rattle.sql_reader.specs.Stacks.{forms};
ghost use Rattle.sql_reader.specs.States.{Forms, Leads, Turns, Withs};
ghost use Rattle.sql_reader.specs.Steps.{at_case, at_def, at_def_as, at_def_name, at_dot, at_exists, at_name, at_semi};
ghost use Rattle.sql_reader.specs.Symbols.{token_view};
ghost use Rattle.sql_reader.specs.Views.{base_view, name_view, selects_view};

use crate::form::Form;
use crate::lists::{Base, Name, Selects, no_selects};
use crate::moves::{leaf, named, wants};
use crate::stack::Stack;
use crate::state::Position;
use crate::token::{Mark, Symbol, Token};
use nq_model::{Label, Memory};
use sql_profile::ExprNode;
use std::alloc::Global;

/// The name of a WITH query.
pub fn at_def(alloc: Global, token: Token<'_>) -> Result<Option<Position>, Memory>
    ensures { (b : Withs) (k : Forms) → Turns result b k (at_def b k (token_view token.entry)) }
{
    match token.symbol {
        Symbol::Name(name) => {
            let name = named(alloc, token.place, name)?;
            Ok(Some(Position::AtDefName { name }))
        }
        _ => Ok(None),
    }
}

/// AS behind the name of a WITH query.
pub fn at_def_name(name: Name, token: Token<'_>) -> Option<Position>
    ensures { (b : Withs) (k : Forms)
        → Leads result b k (at_def_name (name_view name) b k (token_view token.entry)) }
{
    match token.symbol {
        Symbol::Mark(Mark::As) => Some(Position::AtDefAs { name }),
        _ => None,
    }
}

/// The `(` of a WITH query.
pub fn at_def_as(alloc: Global, base: &mut Base, name: Name, token: Token<'_>) -> Option<Position>
    ensures { (k : Forms) → Leads result (base_view base.new) k
        (at_def_as (name_view name) (base_view base.old) k (token_view token.entry)) }
{
    match token.symbol {
        Symbol::Mark(Mark::Opening) => {
            base.name = Some(name);
            let before = no_selects(alloc);
            Some(Position::WantSelect { before })
        }
        _ => None,
    }
}

/// The `.` behind an alias.
pub fn at_name(name: Name, token: Token<'_>) -> Option<Position>
    ensures { (b : Withs) (k : Forms)
        → Leads result b k (at_name (name_view name) b k (token_view token.entry)) }
{
    match token.symbol {
        Symbol::Mark(Mark::Dot) => Some(Position::AtDot { name }),
        _ => None,
    }
}

/// The name of a column.
pub fn at_dot(alloc: Global, name: Name, token: Token<'_>) -> Result<Option<Position>, Memory>
    ensures { (b : Withs) (k : Forms)
        → Turns result b k (at_dot (name_view name) b k (token_view token.entry)) }
{
    match token.symbol {
        Symbol::Name(column) => {
            let column = Label::from_str(alloc, column)?;
            let node = ExprNode::Column {
                alias: name.label,
                column,
            };
            leaf(alloc, name.place, node)
        }
        _ => Ok(None),
    }
}

/// WHEN behind CASE.
pub fn at_case(stack: &mut Stack, place: u64, token: Token<'_>) -> Result<Option<Position>, Memory>
    ensures { (b : Withs) → Turns result b (forms stack.new.levels)
        (at_case place b (forms stack.old.levels) (token_view token.entry)) }
{
    match token.symbol {
        Symbol::Mark(Mark::When) => wants(stack, Form::When { place }),
        _ => Ok(None),
    }
}

/// The `(` of NOT EXISTS.
pub fn at_exists(
    alloc: Global,
    stack: &mut Stack,
    place: u64,
    token: Token<'_>,
) -> Result<Option<Position>, Memory>
    ensures { (b : Withs) → Turns result b (forms stack.new.levels)
        (at_exists place b (forms stack.old.levels) (token_view token.entry)) }
{
    match token.symbol {
        Symbol::Mark(Mark::Opening) => {
            stack.push(Form::NotExists { place })?;
            let before = no_selects(alloc);
            Ok(Some(Position::WantSelect { before }))
        }
        _ => Ok(None),
    }
}

/// The end of the text behind a `;`.
pub fn at_semi(query: Selects, token: Token<'_>) -> Option<Position>
    ensures { (b : Withs) (k : Forms)
        → Leads result b k (at_semi (selects_view query) b k (token_view token.entry)) }
{
    match token.symbol {
        Symbol::End => Some(Position::Ready { query }),
        _ => None,
    }
}
