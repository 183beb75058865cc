// Whether what was read begins a text of a depth.
ghost use Rattle.std.specs.Prelude.{◌≡◌, IfOk};
ghost use Rattle.sql_reader.specs.Needs.{base_needs, fits, head_hole, hole, want_hole};
ghost use Rattle.sql_reader.specs.Stacks.{forms};
ghost use Rattle.sql_reader.specs.States.{head_view, position_view};
ghost use Rattle.sql_reader.specs.Steps.{On};
ghost use Rattle.sql_reader.specs.Views.{base_view};

use crate::extent::one_more;
use crate::form::Form;
use crate::lists::Base;
use crate::stack::{Stack, ranged_depth};
use crate::state::{Head, Position};
use nq_model::Memory;

/// Whether a text of at most this depth begins with what was read.
pub fn fits(base: &Base, stack: &Stack, at: &Position, limit: u64) -> Result<bool, Memory>
    ensures { IfOk result (λ fit.
        fit ≡ fits limit (On (base_view base.now) (forms stack.now.levels)
        (position_view at.now))) }
{
    let hole = hole(at, stack)?;
    let deep = match hole.checked_add(stack.height()) {
        Some(deep) => deep.max(stack.needs()),
        None => return Err(Memory),
    };
    Ok(deep.max(base_needs(base)) <= limit)
}

// How deep the WITH queries make the text, and the main query that has to come behind them.
fn base_needs(base: &Base) -> u64
    ensures { result ≡ base_needs (base_view base.now) }
{
    match &base.name {
        Some(_) => base.extent.depth.max(2),
        None => base.extent.depth,
    }
}

// How deep what was begun inside the forms is at least.
fn hole(at: &Position, stack: &Stack) -> Result<u64, Memory>
    ensures { IfOk result (λ deep. deep ≡ hole (position_view at.now) (forms stack.now.levels)) }
{
    match at {
        Position::Want => Ok(want_hole(stack)),
        Position::WantSelect { before } | Position::AtUnion { before } => Ok(
            before.extent.depth.max(1),
        ),
        Position::Have { part } => Ok(part.extent.depth),
        Position::AtCase { .. } => Ok(2),
        Position::AtExists { .. } => Ok(3),
        Position::AtRow
        | Position::AtRowOpen
        | Position::AtRowClose
        | Position::AtOver
        | Position::InOver => Ok(0),
        Position::AtValue { value } | Position::AtAs { value } => Ok(value.extent.depth),
        Position::HaveItems { ranged, .. }
        | Position::AtSource { ranged, .. }
        | Position::AtSourceName { ranged, .. }
        | Position::AtSourceAs { ranged, .. } => ranged_depth(ranged),
        Position::AtHead { head, .. } => Ok(head_hole(*head)),
        Position::AtTail { scalar, .. } => one_more(scalar.extent.depth),
        Position::AtSemi { query } | Position::Ready { query } => Ok(query.extent.depth),
        Position::AtStart
        | Position::BehindWith
        | Position::AtDef
        | Position::AtDefName { .. }
        | Position::AtDefAs { .. }
        | Position::AtName { .. }
        | Position::AtDot { .. }
        | Position::AtOrder => Ok(1),
    }
}

// How deep a scalar query is at least that begins so.
fn head_hole(head: Head) -> u64
    ensures { result ≡ head_hole (head_view head) }
{
    match head {
        Head::Coalesce | Head::CoalesceOpen | Head::Sum => 2,
        Head::Select | Head::Count | Head::CountOpen | Head::CountStar => 1,
    }
}

// An expression has to begin: behind SELECT or a comma of items a numbering is less, and behind a
// `(` a count that the `(` begins.
fn want_hole(stack: &Stack) -> u64
    ensures { result ≡ want_hole (forms stack.now.levels) }
{
    match stack.top() {
        Some(Form::Item { .. }) | Some(Form::Paren { .. }) => 0,
        _ => 1,
    }
}
