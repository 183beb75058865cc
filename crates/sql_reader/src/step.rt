// One token more.
ghost use Rattle.sql_reader.specs.Stacks.{forms};
ghost use Rattle.sql_reader.specs.States.{Turns, position_view};
ghost use Rattle.sql_reader.specs.Steps.{step_at};
ghost use Rattle.sql_reader.specs.Symbols.{token_view};
ghost use Rattle.sql_reader.specs.Views.{base_view};

use crate::begin::start;
use crate::behind::after;
use crate::between::{
    at_case, at_def, at_def_as, at_def_name, at_dot, at_exists, at_name, at_semi,
};
use crate::lists::Base;
use crate::numbering::{at_order, at_over, at_row, at_row_close, at_row_open, at_value, in_over};
use crate::scalars::{at_head, at_tail};
use crate::selects::{at_as, at_start, at_union, behind_with, start_select};
use crate::sources::{at_alias, at_source, at_table, have_items};
use crate::stack::Stack;
use crate::state::Position;
use crate::token::Token;
use nq_model::Memory;
use std::alloc::Global;

/// The position behind the token; none where the token may not stand there.
pub fn step(
    alloc: Global,
    base: &mut Base,
    stack: &mut Stack,
    at: Position,
    token: Token<'_>,
) -> Result<Option<Position>, Memory>
    ensures { Turns result (base_view base.new) (forms stack.new.levels)
        (step_at (position_view at) (base_view base.old) (forms stack.old.levels)
        (token_view token.entry)) }
{
    match at {
        Position::AtStart => at_start(alloc, stack, token),
        Position::BehindWith => behind_with(alloc, stack, token),
        Position::AtDef => at_def(alloc, token),
        Position::AtDefName { name } => Ok(at_def_name(name, token)),
        Position::AtDefAs { name } => Ok(at_def_as(alloc, base, name, token)),
        Position::WantSelect { before } => start_select(alloc, stack, before, token),
        Position::AtUnion { before } => Ok(at_union(before, token)),
        Position::Want => start(alloc, stack, token),
        Position::AtName { name } => Ok(at_name(name, token)),
        Position::AtDot { name } => at_dot(alloc, name, token),
        Position::AtCase { place } => at_case(stack, place, token),
        Position::AtExists { place } => at_exists(alloc, stack, place, token),
        Position::Have { part } => after(alloc, base, stack, part, token),
        Position::AtRow => Ok(at_row(token)),
        Position::AtRowOpen => Ok(at_row_open(token)),
        Position::AtRowClose => Ok(at_row_close(token)),
        Position::AtOver => Ok(at_over(token)),
        Position::InOver => Ok(in_over(alloc, token)),
        Position::AtOrder => at_order(alloc, stack, token),
        Position::AtValue { value } => Ok(at_value(value, token)),
        Position::AtAs { value } => at_as(alloc, stack, value, token),
        Position::HaveItems { ranged, from } => have_items(alloc, base, stack, ranged, from, token),
        Position::AtSource { ranged, from } => at_source(alloc, ranged, from, token),
        Position::AtSourceName {
            ranged,
            from,
            table,
        } => Ok(at_table(ranged, from, table, token)),
        Position::AtSourceAs {
            ranged,
            from,
            table,
        } => at_alias(alloc, ranged, from, table, token),
        Position::AtHead { place, head } => at_head(alloc, stack, head, place, token),
        Position::AtTail { scalar, tail } => Ok(at_tail(alloc, tail, scalar, token)),
        Position::AtSemi { query } => Ok(at_semi(query, token)),
        Position::Ready { .. } => Ok(None),
    }
}
