// A token of a scalar query, but for its sources and its condition.
ghost use Rattle.std.specs.Prelude.{◌≡◌};
ghost use Rattle.sql_reader.specs.Stacks.{forms};
ghost use Rattle.sql_reader.specs.States.{Forms, Leads, Turns, Withs, head_view, tail_view};
ghost use Rattle.sql_reader.specs.Steps.{at_coalesce, at_coalesce_open, at_count, at_count_open, at_count_star, at_head, at_select, at_sum, at_sum_close, at_sum_comma, at_sum_zero, at_tail, is_zero};
ghost use Rattle.sql_reader.specs.Symbols.{token_view};
ghost use Rattle.sql_reader.specs.Views.{scalar_view};

use crate::form::Form;
use crate::lists::{Ranged, Scalar, counting};
use crate::moves::wants;
use crate::stack::Stack;
use crate::state::{Head, Position, Tail};
use crate::token::{Mark, Symbol, Token};
use nq_model::{Binary, List, Memory};
use std::alloc::Global;

/// A token of the head of a scalar query.
pub fn at_head(
    alloc: Global,
    stack: &mut Stack,
    head: Head,
    place: u64,
    token: Token<'_>,
) -> Result<Option<Position>, Memory>
    ensures { (b : Withs) → Turns result b (forms stack.new.levels)
        (at_head (head_view head) place b (forms stack.old.levels) (token_view token.entry)) }
{
    match head {
        Head::Select => Ok(at_select(place, token)),
        Head::Count => Ok(at_count(place, token)),
        Head::CountOpen => Ok(at_count_open(place, token)),
        Head::CountStar => Ok(at_count_star(alloc, place, token)),
        Head::Coalesce => Ok(at_coalesce(place, token)),
        Head::CoalesceOpen => Ok(at_coalesce_open(place, token)),
        Head::Sum => at_sum(stack, place, token),
    }
}

// COUNT or COALESCE behind SELECT.
fn at_select(place: u64, token: Token<'_>) -> Option<Position>
    ensures { (b : Withs) (k : Forms)
        → Leads result b k (at_select place b k (token_view token.entry)) }
{
    match token.symbol {
        Symbol::Mark(Mark::Count) => Some(Position::AtHead {
            place,
            head: Head::Count,
        }),
        Symbol::Mark(Mark::Coalesce) => Some(Position::AtHead {
            place,
            head: Head::Coalesce,
        }),
        _ => None,
    }
}

// The `(` behind COUNT.
fn at_count(place: u64, token: Token<'_>) -> Option<Position>
    ensures { (b : Withs) (k : Forms)
        → Leads result b k (at_count place b k (token_view token.entry)) }
{
    match token.symbol {
        Symbol::Mark(Mark::Opening) => Some(Position::AtHead {
            place,
            head: Head::CountOpen,
        }),
        _ => None,
    }
}

// The `*` that is counted.
fn at_count_open(place: u64, token: Token<'_>) -> Option<Position>
    ensures { (b : Withs) (k : Forms)
        → Leads result b k (at_count_open place b k (token_view token.entry)) }
{
    match token.symbol {
        Symbol::Mark(Mark::Operator(Binary::Mul)) => Some(Position::AtHead {
            place,
            head: Head::CountStar,
        }),
        _ => None,
    }
}

// The `)` behind it.
fn at_count_star(alloc: Global, place: u64, token: Token<'_>) -> Option<Position>
    ensures { (b : Withs) (k : Forms)
        → Leads result b k (at_count_star place b k (token_view token.entry)) }
{
    match token.symbol {
        Symbol::Mark(Mark::Closing) => Some(Position::HaveItems {
            ranged: Ranged::Scalar(counting(place)),
            from: List::new(alloc),
        }),
        _ => None,
    }
}

// The `(` behind COALESCE.
fn at_coalesce(place: u64, token: Token<'_>) -> Option<Position>
    ensures { (b : Withs) (k : Forms)
        → Leads result b k (at_coalesce place b k (token_view token.entry)) }
{
    match token.symbol {
        Symbol::Mark(Mark::Opening) => Some(Position::AtHead {
            place,
            head: Head::CoalesceOpen,
        }),
        _ => None,
    }
}

// SUM.
fn at_coalesce_open(place: u64, token: Token<'_>) -> Option<Position>
    ensures { (b : Withs) (k : Forms)
        → Leads result b k (at_coalesce_open place b k (token_view token.entry)) }
{
    match token.symbol {
        Symbol::Mark(Mark::Sum) => Some(Position::AtHead {
            place,
            head: Head::Sum,
        }),
        _ => None,
    }
}

// The `(` behind SUM.
fn at_sum(stack: &mut Stack, place: u64, token: Token<'_>) -> Result<Option<Position>, Memory>
    ensures { (b : Withs) → Turns result b (forms stack.new.levels)
        (at_sum place b (forms stack.old.levels) (token_view token.entry)) }
{
    match token.symbol {
        Symbol::Mark(Mark::Opening) => wants(stack, Form::Sum { place }),
        _ => Ok(None),
    }
}

/// A token behind the expression that a scalar query sums.
pub fn at_tail(alloc: Global, tail: Tail, scalar: Scalar, token: Token<'_>) -> Option<Position>
    ensures { (b : Withs) (k : Forms)
        → Leads result b k (at_tail (tail_view tail) (scalar_view scalar) b k
        (token_view token.entry)) }
{
    match tail {
        Tail::Close => at_sum_close(scalar, token),
        Tail::Comma => at_sum_comma(scalar, token),
        Tail::Zero => at_sum_zero(alloc, scalar, token),
    }
}

// The comma of COALESCE.
fn at_sum_close(scalar: Scalar, token: Token<'_>) -> Option<Position>
    ensures { (b : Withs) (k : Forms)
        → Leads result b k (at_sum_close (scalar_view scalar) b k (token_view token.entry)) }
{
    match token.symbol {
        Symbol::Mark(Mark::Comma) => Some(Position::AtTail {
            scalar,
            tail: Tail::Comma,
        }),
        _ => None,
    }
}

// Whether the token is the number spelled `0`.
fn is_zero(token: Token<'_>) -> bool
    ensures { result ≡ is_zero (token_view token.entry) }
{
    match token.symbol {
        Symbol::Number(number) => number.value == 0 && number.digits == 1,
        _ => false,
    }
}

// The `0` of COALESCE.
fn at_sum_comma(scalar: Scalar, token: Token<'_>) -> Option<Position>
    ensures { (b : Withs) (k : Forms)
        → Leads result b k (at_sum_comma (scalar_view scalar) b k (token_view token.entry)) }
{
    if is_zero(token) {
        Some(Position::AtTail {
            scalar,
            tail: Tail::Zero,
        })
    } else {
        None
    }
}

// The `)` of COALESCE.
fn at_sum_zero(alloc: Global, scalar: Scalar, token: Token<'_>) -> Option<Position>
    ensures { (b : Withs) (k : Forms)
        → Leads result b k (at_sum_zero (scalar_view scalar) b k (token_view token.entry)) }
{
    match token.symbol {
        Symbol::Mark(Mark::Closing) => Some(Position::HaveItems {
            ranged: Ranged::Scalar(scalar),
            from: List::new(alloc),
        }),
        _ => None,
    }
}
