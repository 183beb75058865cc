// Reads a query text.
ghost use Rattle.std.specs.Prelude.{IfOk};
ghost use Rattle.nq_model.specs.Proper.{IsProperTerm, IsClosed};
ghost use Rattle.nq_model.specs.Terms.{placed, bare};
ghost use Rattle.nq_parser.specs.Parsing.{Parsed};

use crate::read::read;
use nq_model::Term;
use query_syntax::{SyntaxFault, lower, tokens};
use std::alloc::Global;
use std::str;

/// The term that a query text spells at a depth, with the place of each node. A text that begins
/// with `nq 2;` is of the second edition, and every other of the first. Parentheses count for the
/// depth and leave no node. The faults come in this order, each at its first place in the text:
/// `NotUtf8`; `Token` and `IntRange`; `Unexpected` and `Deep`, at the first token with which no
/// program of that edition and depth begins; `Unbound` and `TwiceLabel`. `Memory` where there is
/// too little memory.
#[tactic(auto, using(crate::proofs::ProperTerms::spelled_proper, crate::proofs::ProperTerms::spelled_closed))]
pub fn parse(alloc: Global, text: &[u8], depth: u64) -> Result<Term, SyntaxFault>
    ensures parsed { Parsed result depth text.now }
    ensures proper { IfOk result (λ term. IsProperTerm (bare (placed term))) }
    ensures closed { IfOk result (λ term. IsClosed (bare (placed term))) }
{
    match parse_bytes(alloc, text, depth) {
        Ok(term) => Ok(term),
        Err(fault) => Err(fault),
    }
}

fn parse_bytes(alloc: Global, text: &[u8], depth: u64) -> Result<Term, SyntaxFault>
    ensures { Parsed result depth text.now }
{
    match str::from_utf8(text) {
        Ok(text) => parse_str(alloc, text, depth),
        Err(error) => Err(SyntaxFault::NotUtf8 {
            place: error.valid_up_to() as u64,
        }),
    }
}

fn parse_str(alloc: Global, text: &str, depth: u64) -> Result<Term, SyntaxFault>
    ensures { Parsed result depth text.now }
{
    let tokens = tokens(alloc, text)?;
    let syntax = read(alloc, tokens.as_slice(), depth)?;
    lower(alloc, syntax)
}
