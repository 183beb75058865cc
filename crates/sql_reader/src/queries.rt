// A token behind a whole query, or behind the sources and the condition of what they belong to.
ghost use Rattle.std.specs.Prelude.{◌≡◌, [], cond, Some, None};
ghost use Rattle.sql_reader.specs.Parts.{scalar};
ghost use Rattle.sql_reader.specs.Stacks.{forms};
ghost use Rattle.sql_reader.specs.States.{Forms, Turns, Withs};
ghost use Rattle.sql_reader.specs.Steps.{On, Position as ReaderPosition, after_query, after_ranged, after_scalar, close_query, end_def, end_main};
ghost use Rattle.sql_reader.specs.Symbols.{token_view};
ghost use Rattle.sql_reader.specs.Views.{base_view, kept_tree, ranged_view, scalar_view, selects_view};

use crate::extent::{Extent, enclosed, greater};
use crate::form::Form;
use crate::lists::{Base, Ranged, Scalar, Selects, add_select};
use crate::part::{not_exists, scalar};
use crate::stack::Stack;
use crate::state::Position;
use crate::token::{Mark, Symbol, Token};
use nq_model::{List, Memory};
use sql_profile::{Expr, Query, Source, With};
use std::alloc::Global;

/// A token behind a whole query: UNION, or the end of what it stands in.
pub fn after_query(
    alloc: Global,
    base: &mut Base,
    stack: &mut Stack,
    query: Selects,
    token: Token<'_>,
) -> Result<Option<Position>, Memory>
    ensures { Turns result (base_view base.new) (forms stack.new.levels)
        (after_query (base_view base.old) (forms stack.old.levels) (selects_view query)
        (token_view token.entry)) }
{
    match token.symbol {
        Symbol::Mark(Mark::Union) => Ok(Some(Position::AtUnion { before: query })),
        Symbol::Mark(Mark::Closing) => close_query(alloc, base, stack, query),
        Symbol::Mark(Mark::Semicolon) => {
            if is_main(base, stack) {
                Ok(Some(Position::AtSemi { query }))
            } else {
                Ok(None)
            }
        }
        Symbol::End => {
            if is_main(base, stack) {
                Ok(Some(Position::Ready { query }))
            } else {
                Ok(None)
            }
        }
        _ => Ok(None),
    }
}

// A `)` behind a whole query: of NOT EXISTS, or of a WITH query.
fn close_query(
    alloc: Global,
    base: &mut Base,
    stack: &mut Stack,
    query: Selects,
) -> Result<Option<Position>, Memory>
    ensures { Turns result (base_view base.new) (forms stack.new.levels)
        (close_query (forms stack.old.levels) (base_view base.old) (selects_view query)) }
{
    let Some(form) = stack.pop() else {
        return end_def(base, query);
    };
    match form {
        Form::NotExists { place } => {
            let part = not_exists(alloc, place, query)?;
            Ok(Some(Position::Have { part }))
        }
        _ => Ok(None),
    }
}

// The WITH query that is being read is whole, if one is.
#[tactic(auto, using(crate::proofs::Putting::withs_put))]
fn end_def(base: &mut Base, query: Selects) -> Result<Option<Position>, Memory>
    ensures { Turns result (base_view base.new) []
        (end_def (base_view base.old).name (base_view base.old) (selects_view query)) }
{
    let Some(name) = base.name.take() else {
        return Ok(None);
    };
    let whole = enclosed(query.extent)?;
    base.extent = greater(base.extent, whole);
    base.withs.push(With {
        name: name.label,
        place: name.place,
        query: Query {
            selects: query.selects,
        },
    })?;
    Ok(Some(Position::BehindWith))
}

// Whether nothing stands round the query, so that it is the main query.
fn is_main(base: &Base, stack: &Stack) -> bool
    ensures { (at : ReaderPosition)
        → end_main (forms stack.now.levels) (base_view base.now) at
        ≡ cond result (Some (On (base_view base.now) (forms stack.now.levels) at)) None }
{
    match (stack.top(), &base.name) {
        (None, None) => true,
        _ => false,
    }
}

/// A token behind the sources and the condition, which is so deep, of what they belong to.
pub fn after_ranged(
    alloc: Global,
    base: &mut Base,
    stack: &mut Stack,
    ranged: Ranged,
    from: List<Source>,
    keep: Option<Expr>,
    kept: Extent,
    token: Token<'_>,
) -> Result<Option<Position>, Memory>
    ensures { Turns result (base_view base.new) (forms stack.new.levels)
        (after_ranged (ranged_view ranged) from (kept_tree keep) kept.depth (base_view base.old)
        (forms stack.old.levels) (token_view token.entry)) }
{
    match ranged {
        Ranged::Select(begun) => {
            let query = add_select(begun, from, keep, kept)?;
            after_query(alloc, base, stack, query, token)
        }
        Ranged::Scalar(begun) => after_scalar(alloc, begun, from, keep, kept, token),
    }
}

// The `)` of a scalar query.
fn after_scalar(
    alloc: Global,
    begun: Scalar,
    from: List<Source>,
    keep: Option<Expr>,
    kept: Extent,
    token: Token<'_>,
) -> Result<Option<Position>, Memory>
    ensures { (b : Withs) (k : Forms)
        → Turns result b k (after_scalar b k
        (scalar (scalar_view begun) from (kept_tree keep) kept.depth) (token_view token.entry)) }
{
    match token.symbol {
        Symbol::Mark(Mark::Closing) => {
            let part = scalar(alloc, begun, from, keep, kept)?;
            Ok(Some(Position::Have { part }))
        }
        _ => Ok(None),
    }
}
