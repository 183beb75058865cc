// The explanation of each fault.
ghost use Rattle.std.specs.Prelude.{◌≡◌, IfOk, option_copied, slice_get};
ghost use Rattle.diagnostics.specs.Excerpts.{excerpt_text};
ghost use Rattle.diagnostics.specs.Sentences.{query_sentence, schema_sentence};
ghost use Rattle.explanations.specs.Explanations.{ExplainsBroken, ExplainsSchema, ExplainsSyntax};
ghost use Rattle.explanations.specs.Explanations.{ExplainsType, broken_text, table_names};
ghost use Rattle.nq_types.specs.Found.{types_found};
ghost use Rattle.explanations.specs.Lists.{words_view};
ghost use Rattle.explanations.specs.Sentences.{token_sentence};

use crate::lines::{put_rule, table_names};
use crate::sentences::token_sentence;
use crate::stops::{explain_missing, explain_name, explain_stop};
use crate::types::put_types;
use diagnostics::{
    QueryFaultKind, SchemaFaultKind, TypingRule, excerpt, query_sentence, schema_sentence,
    typing_rule,
};
use nq_model::{List, Memory, Schema, Ty};
use query_syntax::SyntaxFault;
use schema_reader::SchemaFault;
use std::alloc::Global;

// The excerpt for a fault of a schema.
fn of_schema(
    alloc: Global,
    file: &[u8],
    text: &[u8],
    place: u64,
    kind: SchemaFaultKind,
) -> Result<List<u8>, Memory>
    ensures { IfOk result (λ made. made
        ≡ excerpt_text file.now text.now place (schema_sentence kind)) }
{
    excerpt(alloc, file, text, place, schema_sentence(kind))
}

/// The explanation of a fault of a schema text, which is in a file of this name. Fails only if
/// memory runs out, or if the fault is that it did.
pub fn explain_schema(
    alloc: Global,
    file: &[u8],
    text: &[u8],
    fault: &SchemaFault,
) -> Result<List<u8>, Memory>
    ensures { IfOk result (ExplainsSchema file.now text.now fault.now) }
{
    match *fault {
        SchemaFault::Memory => Err(Memory),
        SchemaFault::NotUtf8 { place } => {
            of_schema(alloc, file, text, place, SchemaFaultKind::NotUtf8)
        }
        SchemaFault::Syntax { place } => {
            of_schema(alloc, file, text, place, SchemaFaultKind::Syntax)
        }
        SchemaFault::TwiceTable { place } => {
            of_schema(alloc, file, text, place, SchemaFaultKind::TwiceTable)
        }
        SchemaFault::TwiceColumn { place } => {
            of_schema(alloc, file, text, place, SchemaFaultKind::TwiceColumn)
        }
        SchemaFault::NoColumn { place } => {
            of_schema(alloc, file, text, place, SchemaFaultKind::NoColumn)
        }
        SchemaFault::KeyColumn { place } => {
            of_schema(alloc, file, text, place, SchemaFaultKind::KeyColumn)
        }
        SchemaFault::OverLimit { place } => {
            of_schema(alloc, file, text, place, SchemaFaultKind::OverLimit)
        }
    }
}

// The excerpt for a fault of a query.
fn of_query(
    alloc: Global,
    file: &[u8],
    text: &[u8],
    place: u64,
    kind: QueryFaultKind,
) -> Result<List<u8>, Memory>
    ensures { IfOk result (λ made. made
        ≡ excerpt_text file.now text.now place (query_sentence kind)) }
{
    excerpt(alloc, file, text, place, query_sentence(kind))
}

// The byte of a place, if the text reaches so far.
fn byte_at(text: &[u8], place: u64) -> Option<&u8>
    ensures { option_copied result ≡ slice_get text.now place }
{
    text.get(place as usize)
}

// The excerpt for a place at which no token begins.
fn no_token(alloc: Global, file: &[u8], text: &[u8], place: u64) -> Result<List<u8>, Memory>
    ensures { IfOk result (λ made. made
        ≡ excerpt_text file.now text.now place (token_sentence (slice_get text.now place))) }
{
    excerpt(
        alloc,
        file,
        text,
        place,
        token_sentence(byte_at(text, place)),
    )
}

/// The explanation of a fault of a query text, which is in a file of this name, was read at this
/// depth, and is judged over the schema. It names a kind of tokens exactly where some query of the
/// depth goes on with it. Fails only if memory runs out, or if the fault is that it did.
pub fn explain_syntax(
    alloc: Global,
    file: &[u8],
    text: &[u8],
    depth: u64,
    fault: &SyntaxFault,
    schema: &Schema,
) -> Result<List<u8>, Memory>
    ensures { IfOk result (λ made. ExplainsSyntax depth file.now text.now (table_names schema.now)
        fault.now made) }
{
    match *fault {
        SyntaxFault::Memory => Err(Memory),
        SyntaxFault::NotUtf8 { place } => {
            of_query(alloc, file, text, place, QueryFaultKind::NotUtf8)
        }
        SyntaxFault::Token { place } => no_token(alloc, file, text, place),
        SyntaxFault::IntRange { place } => {
            of_query(alloc, file, text, place, QueryFaultKind::IntRange)
        }
        SyntaxFault::Unexpected { place } => {
            explain_stop(alloc, file, text, depth, place, QueryFaultKind::Unexpected)
        }
        SyntaxFault::Deep { place } => {
            explain_stop(alloc, file, text, depth, place, QueryFaultKind::Deep)
        }
        SyntaxFault::Unbound { place } => {
            let tables = table_names(alloc, schema)?;
            explain_name(alloc, file, text, place, tables.as_slice())
        }
        SyntaxFault::TwiceLabel { place } => {
            of_query(alloc, file, text, place, QueryFaultKind::TwiceLabel)
        }
    }
}

// The explanation of a broken typing rule, but that of tables, where these types were found.
#[tactic(auto, unfolding(crate::specs::Explanations::broken_text))]
fn broken(
    alloc: Global,
    file: &[u8],
    text: &[u8],
    place: u64,
    found: &[Ty],
    rule: TypingRule,
) -> Result<List<u8>, Memory>
    ensures { IfOk result (λ made. made
        ≡ broken_text file.now text.now place (types_found found.now) rule) }
{
    let mut made = excerpt(alloc, file, text, place, rule.asks())?;
    put_types(alloc, &mut made, found)?;
    put_rule(alloc, &mut made, rule.number(), rule.right())?;
    Ok(made)
}

// The explanation of a broken typing rule, over these tables.
fn explain_broken(
    alloc: Global,
    file: &[u8],
    text: &[u8],
    place: u64,
    rule: TypingRule,
    tables: &[&str],
    found: &[Ty],
) -> Result<List<u8>, Memory>
    ensures { IfOk result (ExplainsBroken file.now text.now place (words_view tables.now)
        (types_found found.now) rule) }
{
    match rule {
        TypingRule::Table => explain_missing(alloc, file, text, place, tables),
        _ => broken(alloc, file, text, place, found, rule),
    }
}

/// The explanation of a typing rule that a query text breaks at a place, over the schema, where
/// these types were found. Fails only if memory runs out.
pub fn explain_type(
    alloc: Global,
    file: &[u8],
    text: &[u8],
    number: u64,
    place: u64,
    schema: &Schema,
    found: &[Ty],
) -> Result<List<u8>, Memory>
    ensures { IfOk result (λ made. ExplainsType file.now text.now place (table_names schema.now)
        (types_found found.now) number made) }
{
    let tables = table_names(alloc, schema)?;
    match typing_rule(number) {
        Some(rule) => explain_broken(alloc, file, text, place, rule, tables.as_slice(), found),
        None => excerpt(alloc, file, text, place, "The query breaks a rule."),
    }
}
