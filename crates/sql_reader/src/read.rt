// Reads tokens, one after the other.
ghost use Rattle.std.specs.Prelude.{◌≡◌, map};
ghost use Rattle.std.specs.Result.{result_map_both};
ghost use Rattle.sql_reader.specs.Reading.{Advances, Ends, Reads};
ghost use Rattle.sql_reader.specs.Stacks.{forms};
ghost use Rattle.sql_reader.specs.States.{position_view, state_view};
ghost use Rattle.sql_reader.specs.Steps.{On, start_state};
ghost use Rattle.sql_reader.specs.Symbols.{token_view};
ghost use Rattle.sql_reader.specs.Views.{base_view};

use crate::extent::nothing;
use crate::fault::SqlFault;
use crate::fits::fits;
use crate::lists::Base;
use crate::stack::Stack;
use crate::state::{Position, State};
use crate::step::step;
use crate::token::Token;
use nq_model::List;
use sql_profile::{Query, SqlText};
use std::alloc::Global;

/// The tree that the tokens of a text spell at a depth. `Unexpected` and `Deep` come at the first
/// token with which the tokens begin no text of that depth; `Memory` where there is too little
/// memory, or the tree would have too many levels.
///
/// After Knuth, "On the translation of languages from left to right", Information and Control 1965:
/// each token shifts, or first reduces the unfinished forms that end before it.
pub fn read(alloc: Global, tokens: &[Token<'_>], depth: u64) -> Result<SqlText, SqlFault>
    requires { Ends (map token_view tokens.now) }
    ensures { Reads result depth (map token_view tokens.now) }
{
    let State {
        mut base,
        mut stack,
        mut at,
    } = start_state(alloc);
    for token in tokens {
        at = advance(alloc, &mut base, &mut stack, at, *token, depth)?;
    }
    match at {
        Position::Ready { query } => Ok(SqlText {
            withs: base.withs,
            main: Query {
                selects: query.selects,
            },
        }),
        _ => unreachable!(),
    }
}

// At the beginning of a text.
pub(crate) fn start_state(alloc: Global) -> State
    ensures { state_view result ≡ start_state }
{
    State {
        base: Base {
            withs: List::new(alloc),
            extent: nothing(),
            name: None,
        },
        stack: Stack::new(alloc),
        at: Position::AtStart,
    }
}

// The position behind the token, which begins a text of this depth.
pub(crate) fn advance(
    alloc: Global,
    base: &mut Base,
    stack: &mut Stack,
    at: Position,
    token: Token<'_>,
    depth: u64,
) -> Result<Position, SqlFault>
    ensures { Advances (result_map_both
        (λ next. record { base = base.new; stack = stack.new; at = next })
        (λ e. e) result) depth (On (base_view base.old) (forms stack.old.levels) (position_view at))
        (token_view token.entry) }
{
    let place = token.place;
    match step(alloc, base, stack, at, token)? {
        Some(next) => {
            if fits(base, stack, &next, depth)? {
                Ok(next)
            } else {
                Err(SqlFault::Deep { place })
            }
        }
        None => Err(SqlFault::Unexpected { place }),
    }
}
