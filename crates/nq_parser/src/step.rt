// One token more.
ghost use Rattle.nq_parser.specs.Editions.{edition_view};
ghost use Rattle.nq_parser.specs.Machine.{step};
ghost use Rattle.nq_parser.specs.Stacks.{frames};
ghost use Rattle.nq_parser.specs.States.{Leads, position_view, state_view, Steps};
ghost use Rattle.query_syntax.specs.Symbols.{token_view};

use crate::begin::start;
use crate::behind::after;
use crate::behind_word::at_word;
use crate::between::{
    at_aggregate, at_comma, at_dot, at_for, at_for_name, at_for_open, at_fun, at_fun_close,
    at_fun_name, at_fun_open, at_label, at_let, at_let_name, at_table, at_where,
};
use crate::edition::Edition;
use crate::stack::Stack;
use crate::state::{Position, State};
use crate::type_begin::start_type;
use crate::type_behind::after_type;
use crate::type_between::{at_type_comma, at_type_label, at_type_word};
use nq_model::Memory;
use query_syntax::Token;
use std::alloc::Global;

/// The state behind the token; none where the token may not stand there.
pub fn step(
    alloc: Global,
    edition: Edition,
    state: State,
    token: Token<'_>,
) -> Result<Option<State>, Memory>
    ensures { Steps result (step (edition_view edition) (state_view state)
        (token_view token.entry)) }
{
    let State { stack, at } = state;
    let mut stack = stack;
    match step_at(alloc, edition, &mut stack, at, token)? {
        Some(at) => Ok(Some(State { stack, at })),
        None => Ok(None),
    }
}

// The position behind the token; none where the token may not stand there.
fn step_at(
    alloc: Global,
    edition: Edition,
    stack: &mut Stack,
    at: Position,
    token: Token<'_>,
) -> Result<Option<Position>, Memory>
    ensures { Leads result (frames stack.new.levels)
        (step (edition_view edition) (position_view at (frames stack.old.levels))
        (token_view token.entry)) }
{
    match at {
        Position::Want => start(alloc, edition, stack, token),
        Position::AtWord { opening, word } => at_word(alloc, edition, stack, opening, word, token),
        Position::AtTable { place } => at_table(alloc, place, token),
        Position::AtAggregate { aggregate, place } => at_aggregate(stack, aggregate, place, token),
        Position::AtFor { place } => Ok(at_for(place, token)),
        Position::AtForOpen { place, opening } => at_for_open(
            alloc, edition, place, opening, token,
        ),
        Position::AtForName {
            place,
            opening,
            variable,
        } => at_for_name(stack, place, opening, variable, token),
        Position::AtWhere { place } => at_where(stack, place, token),
        Position::AtFun { place } => Ok(at_fun(place, token)),
        Position::AtFunOpen { place, opening } => at_fun_open(
            alloc, edition, place, opening, token,
        ),
        Position::AtFunName {
            place,
            opening,
            variable,
        } => Ok(at_fun_name(alloc, place, opening, variable, token)),
        Position::AtFunClose {
            place,
            opening,
            variable,
            colon,
            taken,
            closing,
        } => at_fun_close(
            stack, place, opening, variable, colon, taken, closing, token,
        ),
        Position::AtLet { place } => at_let(alloc, edition, place, token),
        Position::AtLetName { place, variable } => at_let_name(stack, place, variable, token),
        Position::AtComma { fields, comma } => at_comma(alloc, fields, comma, token),
        Position::AtLabel {
            fields,
            comma,
            label,
        } => at_label(stack, fields, comma, label, token),
        Position::AtDot { of, dot } => at_dot(alloc, of, dot, token),
        Position::WantType { ty } => start_type(alloc, edition, ty, token),
        Position::AtTypeWord { opening, word, ty } => at_type_word(
            alloc, edition, opening, word, ty, token,
        ),
        Position::AtTypeComma { fields, comma, ty } => at_type_comma(
            alloc, fields, comma, ty, token,
        ),
        Position::AtTypeLabel {
            fields,
            comma,
            label,
            ty,
        } => at_type_label(fields, comma, label, ty, token),
        Position::HaveType { part, ty } => after_type(alloc, part, ty, token),
        Position::Have { part } => after(alloc, edition, stack, part, token),
        Position::Ready { .. } => Ok(None),
    }
}
