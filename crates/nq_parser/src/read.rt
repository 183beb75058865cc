// Reads tokens, one after the other.
ghost use Rattle.std.specs.Prelude.{map, ℕ};
ghost use Rattle.nq_model.specs.QueryGrammar.{Second, header_tokens};
ghost use Rattle.nq_parser.specs.Editions.{edition_view};
ghost use Rattle.nq_parser.specs.Reading.{Ends, Reads};
ghost use Rattle.nq_parser.specs.Runs.{Advances, IsProgramOf, ReadsBody};
ghost use Rattle.nq_parser.specs.States.{state_view};
ghost use Rattle.query_syntax.specs.Symbols.{token_view};

use crate::edition::{Edition, behind_header};
use crate::fits::fits;
use crate::stack::Stack;
use crate::state::{Position, State};
use crate::step::step;
use query_syntax::{Syntax, SyntaxFault, Token};
use std::alloc::Global;

/// The program that the tokens of a text spell at a depth, in the edition that they begin with.
/// `Unexpected` and `Deep` come at the first token with which the tokens begin no program of that
/// edition and depth; `Memory` where there is too little memory.
#[tactic(auto, using(crate::proofs::Programs::reads_first))]
pub fn read(alloc: Global, tokens: &[Token<'_>], depth: u64) -> Result<Syntax, SyntaxFault>
    requires { Ends (map token_view tokens.now) }
    ensures { Reads result depth (map token_view tokens.now) }
{
    match behind_header(tokens) {
        None => read_body(alloc, Edition::First, tokens, depth),
        Some((place, body)) => read_behind(alloc, place, body, depth),
    }
}

// The program that the tokens spell behind a header at a place. No program is of depth 0, so there
// the header begins none.
#[tactic(auto, using(crate::proofs::Programs::behind_deep, crate::proofs::Programs::behind_reads))]
fn read_behind(
    alloc: Global,
    place: u64,
    tokens: &[Token<'_>],
    depth: u64,
) -> Result<Syntax, SyntaxFault>
    requires { Ends (map token_view tokens.now) }
    ensures { (number : ℕ) (semicolon : ℕ)
        → Reads result depth (header_tokens Second (place, number, semicolon)
        (map token_view tokens.now)) }
{
    if depth == 0 {
        return Err(SyntaxFault::Deep { place });
    }
    read_body(alloc, Edition::Second, tokens, depth)
}

// The program that the tokens behind a header spell.
//
// After Knuth, "On the translation of languages from left to right", Information and Control 1965:
// each token shifts, or first reduces the unfinished forms that end before it.
fn read_body(
    alloc: Global,
    edition: Edition,
    tokens: &[Token<'_>],
    depth: u64,
) -> Result<Syntax, SyntaxFault>
    requires { Ends (map token_view tokens.now) }
    ensures { ReadsBody (edition_view edition) result depth (map token_view tokens.now) }
{
    let mut state = State {
        stack: Stack::new(alloc),
        at: Position::Want,
    };
    for token in tokens {
        state = advance(alloc, edition, state, *token, depth)?;
    }
    match program(state) {
        Some(syntax) => Ok(syntax),
        None => unreachable!(),
    }
}

// The state behind the token, which begins a program of this depth.
fn advance(
    alloc: Global,
    edition: Edition,
    state: State,
    token: Token<'_>,
    depth: u64,
) -> Result<State, SyntaxFault>
    ensures { Advances (edition_view edition) result depth (state_view state)
        (token_view token.entry) }
{
    let place = token.place;
    match step(alloc, edition, state, token)? {
        Some(next) => match fits(&next, depth) {
            Ok(true) => Ok(next),
            Ok(false) => {
                drop(next);
                Err(SyntaxFault::Deep { place })
            }
            Err(_) => {
                drop(next);
                Err(SyntaxFault::Memory)
            }
        },
        None => Err(SyntaxFault::Unexpected { place }),
    }
}

// The program that was read, at the end of a text.
fn program(state: State) -> Option<Syntax>
    ensures { IsProgramOf result (state_view state) }
{
    let State { stack: _, at } = state;
    match at {
        Position::Ready { part, .. } => Some(Box::into_inner(part.syntax)),
        unfinished => {
            drop(unfinished);
            None
        }
    }
}
