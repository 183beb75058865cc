// Where a text ceases to be a query, names that no variable has, and tables that are missing.
ghost use Rattle.std.specs.Prelude.{◌≡◌, IfOk, map};
ghost use Rattle.explanations.specs.Explanations.{ExplainsMissing, ExplainsName, ExplainsStop};
ghost use Rattle.explanations.specs.Explanations.{TokensIn, missing_text, stop_text};
ghost use Rattle.explanations.specs.Explanations.{stopped_text, unbound_text};
ghost use Rattle.explanations.specs.Lists.{words_view};
ghost use Rattle.explanations.specs.Words.{around, around_view, kind_words};

use crate::groups::names;
use crate::lines::{put_expected, put_found, put_name, put_nearest, put_tables, words_of};
use crate::nearest::nearest;
use crate::sentences::{name_sentence, stop_sentence};
use crate::words::{Around, words_around, words_behind};
use diagnostics::{QueryFaultKind, TypingRule, excerpt, query_sentence};
use expected_tokens::{TokenKind, expected_kinds};
use nq_model::{List, Memory};
use query_syntax::{SyntaxFault, Token, tokens};
use std::alloc::Global;
use std::str;

// The tokens of a text, if it has any.
fn tokens_in<'a>(alloc: Global, text: &'a [u8]) -> Result<Option<List<Token<'a>>>, Memory>
    ensures { TokensIn result text.now }
{
    match str::from_utf8(text) {
        Ok(spelled) => match tokens(alloc, spelled) {
            Ok(tokens) => Ok(Some(tokens)),
            Err(SyntaxFault::Memory) => Err(Memory),
            Err(_) => Ok(None),
        },
        Err(_) => Ok(None),
    }
}

/// The explanation where a text stops: what is said of it, what stands there, and the names of what
/// is expected.
#[tactic(auto, unfolding(crate::specs::Explanations::stop_text))]
pub(crate) fn stop_text(
    alloc: Global,
    file: &[u8],
    text: &[u8],
    place: u64,
    sentence: &str,
    found: &str,
    said: &[&str],
) -> Result<List<u8>, Memory>
    ensures { IfOk result (λ made. made ≡ stop_text file.now text.now place sentence.now
        found.now (words_view said.now)) }
{
    let mut made = excerpt(alloc, file, text, place, sentence)?;
    put_found(&mut made, found)?;
    put_expected(&mut made, said)?;
    Ok(made)
}

// The explanation where a text ceases to be a query, by what stands there and what is expected.
#[tactic(auto, unfolding(crate::specs::Explanations::stopped_text))]
fn stopped(
    alloc: Global,
    file: &[u8],
    text: &[u8],
    place: u64,
    kind: QueryFaultKind,
    around: Around<'_>,
    kinds: &[TokenKind],
) -> Result<List<u8>, Memory>
    ensures { IfOk result (λ made. made ≡ stopped_text kind file.now text.now place
        (around_view around.entry) (map kind_words kinds.now)) }
{
    let expected = words_of(alloc, kinds)?;
    let sentence = stop_sentence(kind, around, expected.as_slice());
    let said = names(alloc, expected.as_slice())?;
    stop_text(
        alloc,
        file,
        text,
        place,
        sentence,
        around.found,
        said.as_slice(),
    )
}

/// The explanation where a text ceases to be a query.
pub(crate) fn explain_stop(
    alloc: Global,
    file: &[u8],
    text: &[u8],
    depth: u64,
    place: u64,
    kind: QueryFaultKind,
) -> Result<List<u8>, Memory>
    ensures { IfOk result (λ made. ExplainsStop depth kind file.now text.now place made) }
{
    match tokens_in(alloc, text)? {
        Some(tokens) => match expected_kinds(alloc, tokens.as_slice(), depth)? {
            Some(kinds) => {
                let there = words_around(tokens.as_slice(), place);
                stopped(alloc, file, text, place, kind, there, kinds.as_slice())
            }
            None => excerpt(alloc, file, text, place, query_sentence(kind)),
        },
        None => excerpt(alloc, file, text, place, query_sentence(kind)),
    }
}

// The explanation of a name that no variable has.
#[tactic(auto, unfolding(crate::specs::Explanations::unbound_text))]
fn unbound(
    alloc: Global,
    file: &[u8],
    text: &[u8],
    place: u64,
    tables: &[&str],
    name: &str,
) -> Result<List<u8>, Memory>
    ensures { IfOk result (λ made. made
        ≡ unbound_text file.now text.now place (words_view tables.now) name.now) }
{
    let sentence = name_sentence(tables, name);
    let mut made = excerpt(alloc, file, text, place, sentence)?;
    put_name(&mut made, tables, name)?;
    Ok(made)
}

/// The explanation of a name that no variable has, over these tables.
pub(crate) fn explain_name(
    alloc: Global,
    file: &[u8],
    text: &[u8],
    place: u64,
    tables: &[&str],
) -> Result<List<u8>, Memory>
    ensures { IfOk result (λ made. ExplainsName file.now text.now place (words_view tables.now)
        made) }
{
    match tokens_in(alloc, text)? {
        Some(tokens) => {
            let name = words_around(tokens.as_slice(), place).found;
            unbound(alloc, file, text, place, tables, name)
        }
        None => excerpt(
            alloc,
            file,
            text,
            place,
            query_sentence(QueryFaultKind::Unbound),
        ),
    }
}

/// The explanation where a name stands that no table has, and a rule asks for one.
#[tactic(auto, unfolding(crate::specs::Explanations::missing_text))]
pub(crate) fn missing(
    alloc: Global,
    file: &[u8],
    text: &[u8],
    place: u64,
    asks: &str,
    tables: &[&str],
    name: &str,
) -> Result<List<u8>, Memory>
    ensures { IfOk result (λ made. made
        ≡ missing_text file.now text.now place asks.now (words_view tables.now) name.now) }
{
    let mut made = excerpt(alloc, file, text, place, asks)?;
    put_tables(&mut made, tables)?;
    put_nearest(&mut made, nearest(tables, name))?;
    Ok(made)
}

/// The explanation of a table that is none of these, whose name stands behind the place.
pub(crate) fn explain_missing(
    alloc: Global,
    file: &[u8],
    text: &[u8],
    place: u64,
    tables: &[&str],
) -> Result<List<u8>, Memory>
    ensures { IfOk result (ExplainsMissing file.now text.now place (words_view tables.now)) }
{
    match tokens_in(alloc, text)? {
        Some(tokens) => {
            let name = words_behind(tokens.as_slice(), place);
            missing(
                alloc,
                file,
                text,
                place,
                TypingRule::Table.asks(),
                tables,
                name,
            )
        }
        None => excerpt(alloc, file, text, place, TypingRule::Table.asks()),
    }
}
