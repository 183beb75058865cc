// Whether an SQL text begins with tokens.
ghost use Rattle.std.specs.Prelude.{◌≡◌, map};
ghost use Rattle.sql_reader.specs.Openness.{FindsFront, KindsGoOn, ReadsFront, StopsBehind};
ghost use Rattle.sql_reader.specs.Openness.{TellsOpen};
ghost use Rattle.sql_reader.specs.Symbols.{token_view};

use crate::fault::SqlFault;
use crate::read::{advance, start_state};
use crate::state::State;
use crate::token::Token;
use nq_model::Memory;
use std::alloc::Global;

// The depth of the least text, a query with one SELECT.
const LEAST_DEPTH: u64 = 2;

/// Whether some SQL text of this depth begins with the tokens. `Memory` where there is too little
/// memory.
pub fn is_open(alloc: Global, tokens: &[Token<'_>], depth: u64) -> Result<bool, Memory>
    ensures { TellsOpen result depth (map token_view tokens.now) }
{
    if depth < LEAST_DEPTH {
        return Ok(false);
    }
    let count = read_front(alloc, tokens, depth)?;
    Ok(count == tokens.len())
}

/// How many tokens stand before the first with which no SQL text of this depth begins; none where
/// a text begins with them all. `Memory` where there is too little memory.
pub fn open_front(alloc: Global, tokens: &[Token<'_>], depth: u64) -> Result<Option<usize>, Memory>
    ensures { FindsFront result depth (map token_view tokens.now) }
{
    let count = read_front(alloc, tokens, depth)?;
    if count == tokens.len() {
        Ok(None)
    } else {
        Ok(Some(count))
    }
}

// How many of the tokens the reader reads.
fn read_front(alloc: Global, tokens: &[Token<'_>], depth: u64) -> Result<usize, Memory>
    ensures { ReadsFront result depth (map token_view tokens.now) }
{
    let State {
        mut base,
        mut stack,
        mut at,
    } = start_state(alloc);
    for (count, token) in tokens.iter().enumerate() {
        match advance(alloc, &mut base, &mut stack, at, *token, depth) {
            Ok(next) => at = next,
            Err(fault) => return stop(fault, count),
        }
    }
    drop(State { base, stack, at });
    Ok(tokens.len())
}

// What is told where the token behind so many has this fault.
fn stop(fault: SqlFault, count: usize) -> Result<usize, Memory>
    ensures { StopsBehind result fault count }
{
    match fault {
        SqlFault::Memory => Err(Memory),
        _ => Ok(count),
    }
}

/// Behind any tokens each token of a kind goes on, or none.
pub fn open_laws()
    ensures { KindsGoOn }
{}
