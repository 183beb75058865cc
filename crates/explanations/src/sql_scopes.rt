// Rules of scope that an SQL text breaks.
ghost use Rattle.std.specs.Prelude.{◌≡◌, IfOk};
ghost use Rattle.explanations.specs.Lists.{words_view};
ghost use Rattle.explanations.specs.SqlExplanations.{ExplainsAlias, ExplainsSource, alias_sentence};
ghost use Rattle.explanations.specs.SqlExplanations.{scope_text};

use crate::lines::put_rule;
use crate::lists::among;
use crate::sql_found::put_sql_found;
use crate::sql_stops::tokens_in;
use crate::sql_words::name_at;
use crate::stops::missing;
use diagnostics::{ScopeRule, excerpt};
use nq_model::{List, Memory};
use sql_scope::Found;
use std::alloc::Global;

/// The explanation of a broken scope rule, with this sentence, where this was found.
#[tactic(auto, unfolding(crate::specs::SqlExplanations::scope_text))]
pub(crate) fn broken(
    alloc: Global,
    file: &[u8],
    text: &[u8],
    place: u64,
    sentence: &str,
    found: &Found,
    rule: ScopeRule,
) -> Result<List<u8>, Memory>
    ensures { IfOk result (λ made. made
        ≡ scope_text file.now text.now place sentence.now found.now rule) }
{
    let mut made = excerpt(alloc, file, text, place, sentence)?;
    put_sql_found(alloc, &mut made, found)?;
    put_rule(alloc, &mut made, rule.number(), rule.right())?;
    Ok(made)
}

// Of an alias that none around has: whether a table has this name.
fn alias_sentence(tables: &[&str], name: &str) -> &'static str
    ensures { result.now ≡ alias_sentence (words_view tables.now) name.now }
{
    if among(tables, name) {
        "This is a table's name. Write the alias that FROM gives it, as in \"d\".\"name\"."
    } else {
        ScopeRule::Alias.asks()
    }
}

/// The explanation of an alias that none around has, which stands at the place, where this was
/// found.
pub(crate) fn explain_alias(
    alloc: Global,
    file: &[u8],
    text: &[u8],
    place: u64,
    tables: &[&str],
    found: &Found,
) -> Result<List<u8>, Memory>
    ensures { IfOk result (ExplainsAlias file.now text.now place (words_view tables.now)
        found.now) }
{
    let rule = ScopeRule::Alias;
    match tokens_in(alloc, text)? {
        Some(tokens) => {
            let sentence = alias_sentence(tables, name_at(tokens.as_slice(), place));
            broken(alloc, file, text, place, sentence, found, rule)
        }
        None => broken(alloc, file, text, place, rule.asks(), found, rule),
    }
}

/// The explanation of a source that is none of these tables, and no WITH query, whose name stands
/// at the place.
pub(crate) fn explain_source(
    alloc: Global,
    file: &[u8],
    text: &[u8],
    place: u64,
    tables: &[&str],
) -> Result<List<u8>, Memory>
    ensures { IfOk result (ExplainsSource file.now text.now place (words_view tables.now)) }
{
    match tokens_in(alloc, text)? {
        Some(tokens) => {
            let name = name_at(tokens.as_slice(), place);
            missing(
                alloc,
                file,
                text,
                place,
                ScopeRule::Source.asks(),
                tables,
                name,
            )
        }
        None => excerpt(alloc, file, text, place, ScopeRule::Source.asks()),
    }
}
