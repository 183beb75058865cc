// The explanation of each fault of an SQL text.
ghost use Rattle.std.specs.Prelude.{◌≡◌, IfOk};
ghost use Rattle.diagnostics.specs.Excerpts.{excerpt_text};
ghost use Rattle.diagnostics.specs.Sentences.{sql_sentence};
ghost use Rattle.explanations.specs.Explanations.{table_names};
ghost use Rattle.explanations.specs.Lists.{words_view};
ghost use Rattle.explanations.specs.SqlExplanations.{ExplainsBrokenScope, ExplainsScope};
ghost use Rattle.explanations.specs.SqlExplanations.{ExplainsSql};

use crate::lines::table_names;
use crate::sql_places::place_sentence;
use crate::sql_scopes::{broken, explain_alias, explain_source};
use crate::sql_stops::explain_sql_stop;
use diagnostics::{ScopeRule, SqlFaultKind, excerpt, scope_rule, sql_sentence};
use nq_model::{List, Memory, Schema};
use sql_reader::SqlFault;
use sql_scope::Found;
use std::alloc::Global;

// The excerpt for a fault of an SQL text.
fn of_sql(
    alloc: Global,
    file: &[u8],
    text: &[u8],
    place: u64,
    kind: SqlFaultKind,
) -> Result<List<u8>, Memory>
    ensures { IfOk result (λ made. made
        ≡ excerpt_text file.now text.now place (sql_sentence kind)) }
{
    excerpt(alloc, file, text, place, sql_sentence(kind))
}

/// The explanation of a fault of an SQL text, which is in a file of this name and was read at this
/// depth. It names a kind of tokens exactly where some SQL text of the depth goes on with it. Fails
/// only if memory runs out, or if the fault is that it did.
pub fn explain_sql(
    alloc: Global,
    file: &[u8],
    text: &[u8],
    depth: u64,
    fault: &SqlFault,
) -> Result<List<u8>, Memory>
    ensures { IfOk result (ExplainsSql depth file.now text.now fault.now) }
{
    match *fault {
        SqlFault::Memory => Err(Memory),
        SqlFault::NotUtf8 { place } => of_sql(alloc, file, text, place, SqlFaultKind::NotUtf8),
        SqlFault::Token { place } => {
            excerpt(alloc, file, text, place, place_sentence(text, place))
        }
        SqlFault::IntRange { place } => of_sql(alloc, file, text, place, SqlFaultKind::IntRange),
        SqlFault::Unexpected { place } => {
            explain_sql_stop(alloc, file, text, depth, place, SqlFaultKind::Unexpected)
        }
        SqlFault::Deep { place } => {
            explain_sql_stop(alloc, file, text, depth, place, SqlFaultKind::Deep)
        }
    }
}

// The explanation of a broken scope rule, over these tables, where this was found.
fn explain_broken(
    alloc: Global,
    file: &[u8],
    text: &[u8],
    place: u64,
    rule: ScopeRule,
    tables: &[&str],
    found: &Found,
) -> Result<List<u8>, Memory>
    ensures { IfOk result (ExplainsBrokenScope file.now text.now place (words_view tables.now)
        found.now rule) }
{
    match rule {
        ScopeRule::Source => explain_source(alloc, file, text, place, tables),
        ScopeRule::Alias => explain_alias(alloc, file, text, place, tables, found),
        _ => broken(alloc, file, text, place, rule.asks(), found, rule),
    }
}

/// The explanation of a scope rule that an SQL text breaks at a place, over the schema, where this
/// was found. Fails only if memory runs out.
pub fn explain_scope(
    alloc: Global,
    file: &[u8],
    text: &[u8],
    number: u64,
    place: u64,
    schema: &Schema,
    found: &Found,
) -> Result<List<u8>, Memory>
    ensures { IfOk result (λ made. ExplainsScope file.now text.now place (table_names schema.now)
        found.now number made) }
{
    let tables = table_names(alloc, schema)?;
    match scope_rule(number) {
        Some(rule) => explain_broken(alloc, file, text, place, rule, tables.as_slice(), found),
        None => excerpt(alloc, file, text, place, "The SQL text breaks a rule."),
    }
}
