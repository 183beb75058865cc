// Where a text ceases to be SQL that nq takes.
ghost use Rattle.std.specs.Prelude.{◌≡◌, IfOk, map};
ghost use Rattle.explanations.specs.Lists.{words_view};
ghost use Rattle.explanations.specs.SqlExplanations.{ExplainsSqlStop, SqlTokensIn};
ghost use Rattle.explanations.specs.SqlExplanations.{sql_stopped_text};
ghost use Rattle.explanations.specs.SqlWords.{sql_around, sql_kind_words};
ghost use Rattle.explanations.specs.Words.{around_view};

use crate::sql_groups::sql_names;
use crate::sql_hints::sql_stop_sentence;
use crate::sql_words::{sql_kind_words, sql_words_around};
use crate::stops::stop_text;
use crate::words::Around;
use diagnostics::{SqlFaultKind, excerpt, sql_sentence};
use expected_sql_tokens::{SqlTokenKind, expected_sql_kinds};
use nq_model::{List, Memory};
use sql_reader::{SqlFault, Token, tokens};
use std::alloc::Global;
use std::str;

/// The tokens of a text, if it has any.
pub(crate) fn tokens_in<'a>(
    alloc: Global,
    text: &'a [u8],
) -> Result<Option<List<Token<'a>>>, Memory>
    ensures { SqlTokensIn result text.now }
{
    match str::from_utf8(text) {
        Ok(spelled) => match tokens(alloc, spelled) {
            Ok(tokens) => Ok(Some(tokens)),
            Err(SqlFault::Memory) => Err(Memory),
            Err(_) => Ok(None),
        },
        Err(_) => Ok(None),
    }
}

// The words of kinds of tokens.
fn words_of(alloc: Global, kinds: &[SqlTokenKind]) -> Result<List<&'static str>, Memory>
    ensures { IfOk result (λ words. words_view words ≡ map sql_kind_words kinds.now) }
{
    let mut words = List::new(alloc);
    for kind in kinds {
        words.push(sql_kind_words(*kind))?;
    }
    Ok(words)
}

// The explanation where a text ceases to be SQL that nq takes, by what stands there and what is
// expected.
#[tactic(auto, unfolding(crate::specs::SqlExplanations::sql_stopped_text))]
fn stopped(
    alloc: Global,
    file: &[u8],
    text: &[u8],
    place: u64,
    kind: SqlFaultKind,
    around: Around<'_>,
    kinds: &[SqlTokenKind],
) -> Result<List<u8>, Memory>
    ensures { IfOk result (λ made. made ≡ sql_stopped_text kind file.now text.now place
        (around_view around.entry) (map sql_kind_words kinds.now)) }
{
    let expected = words_of(alloc, kinds)?;
    let sentence = sql_stop_sentence(kind, around, expected.as_slice());
    let said = sql_names(alloc, expected.as_slice())?;
    stop_text(
        alloc,
        file,
        text,
        place,
        sentence,
        around.found,
        said.as_slice(),
    )
}

/// The explanation where a text ceases to be SQL that nq takes.
pub(crate) fn explain_sql_stop(
    alloc: Global,
    file: &[u8],
    text: &[u8],
    depth: u64,
    place: u64,
    kind: SqlFaultKind,
) -> Result<List<u8>, Memory>
    ensures { IfOk result (λ made. ExplainsSqlStop depth kind file.now text.now place made) }
{
    match tokens_in(alloc, text)? {
        Some(tokens) => match expected_sql_kinds(alloc, tokens.as_slice(), depth)? {
            Some(kinds) => {
                let there = sql_words_around(tokens.as_slice(), place);
                stopped(alloc, file, text, place, kind, there, kinds.as_slice())
            }
            None => excerpt(alloc, file, text, place, sql_sentence(kind)),
        },
        None => excerpt(alloc, file, text, place, sql_sentence(kind)),
    }
}
