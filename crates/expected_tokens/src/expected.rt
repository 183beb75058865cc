// Which kinds of tokens are expected.
ghost use Rattle.std.specs.Prelude.{◌≡◌, ◌++◌, ◌∷◌, [], if◌then◌else◌, map, OnOk};
ghost use Rattle.expected_tokens.specs.Expected.{Expected, Picked, TellsKind};
ghost use Rattle.nq_parser.specs.Editions.{edition_view};
ghost use Rattle.query_syntax.specs.Symbols.{token_view};

use crate::kinds::{KINDS, TokenKind};
use crate::samples::{has_tokens, sample};
use nq_model::{List, Memory};
use nq_parser::{Edition, edition_of, is_open, open_front, open_laws};
use query_syntax::Token;
use std::alloc::Global;

/// The kinds of tokens with which a program of the edition and of this depth goes on, where the
/// tokens of a text cease to begin one: a kind is among them exactly where some token of the kind
/// goes on, and then each does. None where a program begins with all the tokens. `Memory` where
/// there is too little memory.
pub fn expected_kinds(
    alloc: Global,
    tokens: &[Token<'_>],
    depth: u64,
) -> Result<Option<List<TokenKind>>, Memory>
    ensures { Expected result depth (map token_view tokens.now) }
{
    open_laws();
    match open_front(alloc, tokens, depth)? {
        Some(count) => {
            let edition = edition_of(tokens);
            let kinds = pick(alloc, edition, &tokens[..count], depth, &KINDS)?;
            Ok(Some(kinds))
        }
        None => Ok(None),
    }
}

// The kinds of a table that go on behind the tokens.
fn pick(
    alloc: Global,
    edition: Edition,
    before: &[Token<'_>],
    depth: u64,
    table: &[TokenKind],
) -> Result<List<TokenKind>, Memory>
    ensures { Picked (edition_view edition) result depth (map token_view before.now) table.now }
{
    let mut kinds = List::new(alloc);
    for kind in table {
        let goes = goes_on(alloc, edition, before, depth, *kind)?;
        push_if(goes, &mut kinds, *kind)?;
    }
    Ok(kinds)
}

// Puts the kind behind the others, if it goes on.
fn push_if(goes: bool, kinds: &mut List<TokenKind>, kind: TokenKind) -> Result<(), Memory>
    ensures { OnOk result (kinds.new
        ≡ (if goes then kinds.old ++ kind ∷ [] else kinds.old)) }
{
    if goes {
        return kinds.push(kind);
    }
    Ok(())
}

// Whether the edition has tokens of the kind, and one of them goes on behind the tokens.
fn goes_on(
    alloc: Global,
    edition: Edition,
    before: &[Token<'_>],
    depth: u64,
    kind: TokenKind,
) -> Result<bool, Memory>
    ensures { TellsKind (edition_view edition) result depth (map token_view before.now) kind }
{
    if !has_tokens(edition, kind) {
        return Ok(false);
    }
    let mut tokens = Vec::from_slice(alloc, before)?;
    tokens.push(sample(kind))?;
    is_open(alloc, edition, tokens.as_slice(), depth)
}
