// Which kinds of tokens are expected.
ghost use Rattle.std.specs.Prelude.{◌≡◌, ◌++◌, ◌∷◌, [], if◌then◌else◌, map};
ghost use Rattle.std.specs.Prelude.{OnOk};
ghost use Rattle.expected_sql_tokens.specs.Expected.{Expected, Picked, TellsKind};
ghost use Rattle.sql_reader.specs.Symbols.{token_view};

use crate::kinds::{KINDS, SqlTokenKind};
use crate::samples::sample;
use nq_model::{List, Memory};
use sql_reader::{Token, is_open, open_front, open_laws};
use std::alloc::Global;

/// The kinds of tokens with which an SQL text of this depth goes on, where the tokens cease to
/// begin one: a kind is among them exactly where some token of the kind goes on, and then each
/// does. None where a text begins with all the tokens. `Memory` where there is too little memory.
pub fn expected_sql_kinds(
    alloc: Global,
    tokens: &[Token<'_>],
    depth: u64,
) -> Result<Option<List<SqlTokenKind>>, Memory>
    ensures { Expected result depth (map token_view tokens.now) }
{
    open_laws();
    match open_front(alloc, tokens, depth)? {
        Some(count) => {
            let kinds = pick(alloc, &tokens[..count], depth, &KINDS)?;
            Ok(Some(kinds))
        }
        None => Ok(None),
    }
}

// The kinds of a table that go on behind the tokens.
fn pick(
    alloc: Global,
    before: &[Token<'_>],
    depth: u64,
    table: &[SqlTokenKind],
) -> Result<List<SqlTokenKind>, Memory>
    ensures { Picked result depth (map token_view before.now) table.now }
{
    let mut kinds = List::new(alloc);
    for kind in table {
        let goes = goes_on(alloc, before, depth, *kind)?;
        push_if(goes, &mut kinds, *kind)?;
    }
    Ok(kinds)
}

// Puts the kind behind the others, if it goes on.
fn push_if(goes: bool, kinds: &mut List<SqlTokenKind>, kind: SqlTokenKind) -> Result<(), Memory>
    ensures { OnOk result (kinds.new
        ≡ (if goes then kinds.old ++ kind ∷ [] else kinds.old)) }
{
    if goes {
        return kinds.push(kind);
    }
    Ok(())
}

// Whether the tokens of the kind go on behind these.
fn goes_on(
    alloc: Global,
    before: &[Token<'_>],
    depth: u64,
    kind: SqlTokenKind,
) -> Result<bool, Memory>
    ensures { TellsKind result depth (map token_view before.now) kind }
{
    let mut tokens = Vec::from_slice(alloc, before)?;
    tokens.push(sample(kind))?;
    is_open(alloc, tokens.as_slice(), depth)
}
