// A token behind a whole expression.
ghost use Rattle.std.specs.Prelude.{List};
ghost use Rattle.nq_model.specs.QueryGrammar.{Edition as AnyEdition};
ghost use Rattle.nq_model.specs.QueryTokens.{Dot, End, Opening, Oper, Sign};
ghost use Rattle.nq_parser.specs.Editions.{edition_view};
ghost use Rattle.nq_parser.specs.Forms.{part_view};
ghost use Rattle.nq_parser.specs.Machine.{Frame, after, shift};
ghost use Rattle.nq_parser.specs.Stacks.{frames};
ghost use Rattle.nq_parser.specs.States.{Leads, Stands};
ghost use Rattle.query_syntax.specs.Symbols.{operator_view, token_view};

use crate::edition::Edition;
use crate::form::Form;
use crate::inside::{close, close_bag, comma_behind, semicolon_behind, word_behind};
use crate::levels::{left_level, level_of};
use crate::part::Part;
use crate::settle::settle;
use crate::stack::Stack;
use crate::state::Position;
use crate::wants::wants;
use nq_model::Memory;
use query_syntax::{Operator, Symbol, Token};
use std::alloc::Global;

/// A token behind an expression: forms that are open to the right end before it, and another goes
/// on.
pub fn after(
    alloc: Global,
    edition: Edition,
    stack: &mut Stack,
    part: Part,
    token: Token<'_>,
) -> Result<Option<Position>, Memory>
    ensures { Leads result (frames stack.new.levels)
        (after (edition_view edition) (frames stack.old.levels) (part_view part)
        (token_view token.entry)) }
{
    let part = settle(alloc, stack, part, token)?;
    shift(alloc, edition, stack, part, token)
}

// A token behind an expression that no form around takes for whole.
fn shift(
    alloc: Global,
    edition: Edition,
    stack: &mut Stack,
    part: Part,
    token: Token<'_>,
) -> Result<Option<Position>, Memory>
    ensures { Leads result (frames stack.new.levels)
        (shift (edition_view edition) (frames stack.old.levels) (part_view part)
        (token_view token.entry)) }
{
    let place = token.place;
    match token.symbol {
        Symbol::Operator(op) => shift_operator(stack, part, place, op),
        Symbol::Opening => shift_opening(stack, part, place),
        Symbol::Dot => Ok(shift_dot(part, place)),
        Symbol::Closing => close(alloc, stack, part, place),
        Symbol::ClosingBag => close_bag(alloc, stack, part, place),
        Symbol::Word(word) => word_behind(edition, stack, part, place, word),
        Symbol::Semicolon => semicolon_behind(stack, part, place),
        Symbol::Comma => comma_behind(alloc, stack, part, place),
        Symbol::End => Ok(shift_end(stack, part, place)),
        Symbol::Number(_)
        | Symbol::Literal(_)
        | Symbol::OpeningBag
        | Symbol::Colon
        | Symbol::Assign
        | Symbol::From
        | Symbol::Arrow
        | Symbol::Bang => Ok(None),
    }
}

// An operator takes the expression, where it may stand on its left.
fn shift_operator(
    stack: &mut Stack,
    left: Part,
    place: u64,
    op: Operator,
) -> Result<Option<Position>, Memory>
    ensures { (edition : AnyEdition)
        → Leads result (frames stack.new.levels)
        (shift edition (frames stack.old.levels) (part_view left) (Oper place (operator_view op))) }
{
    if left_level(op) <= level_of(&left.syntax) {
        wants(stack, Form::Right { left, place, op })
    } else {
        Ok(None)
    }
}

// A `(` applies the expression, where it may be a function.
fn shift_opening(stack: &mut Stack, func: Part, opening: u64) -> Result<Option<Position>, Memory>
    ensures { (edition : AnyEdition)
        → Leads result (frames stack.new.levels)
        (shift edition (frames stack.old.levels) (part_view func) (Sign opening Opening)) }
{
    if 9 <= level_of(&func.syntax) {
        wants(stack, Form::Argument { func, opening })
    } else {
        Ok(None)
    }
}

// A `.` takes a field of the expression, where it may have one.
fn shift_dot(of: Part, dot: u64) -> Option<Position>
    ensures { (edition : AnyEdition) (k : List Frame)
        → Stands result k (shift edition k (part_view of) (Sign dot Dot)) }
{
    if 9 <= level_of(&of.syntax) {
        Some(Position::AtDot { of, dot })
    } else {
        None
    }
}

// The end of the text behind a whole program.
fn shift_end(stack: &Stack, part: Part, end: u64) -> Option<Position>
    ensures { (edition : AnyEdition)
        → Stands result (frames stack.now.levels)
        (shift edition (frames stack.now.levels) (part_view part) (End end)) }
{
    if stack.height() == 0 {
        Some(Position::Ready { part, end })
    } else {
        None
    }
}
