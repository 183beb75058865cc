// Whether a program begins with tokens.
ghost use Rattle.std.specs.Prelude.{◌≡◌, map};
ghost use Rattle.nq_parser.specs.Editions.{edition_view};
ghost use Rattle.nq_parser.specs.Openness.{header_front, FindsFront, FindsStop, GoesOn, KindsGoOn};
ghost use Rattle.nq_parser.specs.Openness.{ReadsFront, TellsAll, TellsOpen};
ghost use Rattle.nq_parser.specs.States.{state_view};
ghost use Rattle.query_syntax.specs.Symbols.{token_view};

use crate::edition::{Edition, behind_header, is_nq, is_two};
use crate::fits::fits;
use crate::stack::Stack;
use crate::state::{Position, State};
use crate::step::step;
use nq_model::Memory;
use query_syntax::Token;
use std::alloc::Global;

/// Whether some program of the edition and of this depth begins with the tokens. `Memory` where
/// there is too little memory.
pub fn is_open(
    alloc: Global,
    edition: Edition,
    tokens: &[Token<'_>],
    depth: u64,
) -> Result<bool, Memory>
    ensures { TellsOpen (edition_view edition) result depth (map token_view tokens.now) }
{
    if depth == 0 {
        return Ok(false);
    }
    match edition {
        Edition::First => reads_all(alloc, edition, tokens, depth),
        Edition::Second => match behind_header(tokens) {
            None => Ok(begins_header(tokens)),
            Some((_, body)) => reads_all(alloc, edition, body, depth),
        },
    }
}

// Whether the tokens, among which no header ends, begin with one.
fn begins_header(tokens: &[Token<'_>]) -> bool
    ensures { result ≡ header_front (map token_view tokens.now) }
{
    match tokens {
        [] => true,
        [word] => is_nq(*word),
        [word, number] => is_nq(*word) && is_two(*number),
        _ => false,
    }
}

// Whether the machine reads all of the tokens, which stand behind a header.
fn reads_all(
    alloc: Global,
    edition: Edition,
    tokens: &[Token<'_>],
    depth: u64,
) -> Result<bool, Memory>
    ensures { TellsAll (edition_view edition) result depth (map token_view tokens.now) }
{
    let count = read_front(alloc, edition, tokens, depth)?;
    Ok(count == tokens.len())
}

/// How many tokens of a text stand before the first with which no program of its edition and of
/// this depth begins; none where a program begins with them all. `Memory` where there is too
/// little memory.
pub fn open_front(alloc: Global, tokens: &[Token<'_>], depth: u64) -> Result<Option<usize>, Memory>
    ensures { FindsFront result depth (map token_view tokens.now) }
{
    match behind_header(tokens) {
        None => find_stop(alloc, Edition::First, tokens, depth),
        Some((_, body)) => {
            if depth == 0 {
                return Ok(Some(0));
            }
            match find_stop(alloc, Edition::Second, body, depth)? {
                Some(count) => Ok(Some(tokens.len() - body.len() + count)),
                None => Ok(None),
            }
        }
    }
}

// How many of the tokens, which stand behind a header, the machine reads, if not all.
fn find_stop(
    alloc: Global,
    edition: Edition,
    tokens: &[Token<'_>],
    depth: u64,
) -> Result<Option<usize>, Memory>
    ensures { FindsStop (edition_view edition) result depth (map token_view tokens.now) }
{
    let count = read_front(alloc, edition, tokens, depth)?;
    if count == tokens.len() {
        Ok(None)
    } else {
        Ok(Some(count))
    }
}

// How many of the tokens, which stand behind a header, the machine reads.
fn read_front(
    alloc: Global,
    edition: Edition,
    tokens: &[Token<'_>],
    depth: u64,
) -> Result<usize, Memory>
    ensures { ReadsFront (edition_view edition) result depth (map token_view tokens.now) }
{
    let mut state = State {
        stack: Stack::new(alloc),
        at: Position::Want,
    };
    for (count, token) in tokens.iter().enumerate() {
        match goes_on(alloc, edition, state, *token, depth)? {
            Some(next) => state = next,
            None => return Ok(count),
        }
    }
    drop(state);
    Ok(tokens.len())
}

// The state behind the token, if a program of this depth goes on with it.
fn goes_on(
    alloc: Global,
    edition: Edition,
    state: State,
    token: Token<'_>,
    depth: u64,
) -> Result<Option<State>, Memory>
    ensures { GoesOn (edition_view edition) result depth (state_view state)
        (token_view token.entry) }
{
    match step(alloc, edition, state, token)? {
        Some(next) => match fits(&next, depth) {
            Ok(true) => Ok(Some(next)),
            Ok(false) => {
                drop(next);
                Ok(None)
            }
            Err(error) => {
                drop(next);
                Err(error)
            }
        },
        None => Ok(None),
    }
}

/// Where a text ceases to be open, each token of a kind would have gone on, or none.
pub fn open_laws()
    ensures { KindsGoOn }
{}
