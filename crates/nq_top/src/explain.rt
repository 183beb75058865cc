// The type of a query, or what explains why it is refused; and why a schema is, over which a query,
// an SQL text or a table is explained.
ghost use Rattle.std.specs.Prelude.{◌≡◌, false, IfOk, IfSome, Ok};
ghost use Rattle.nq_model.specs.Terms.{placed};
ghost use Rattle.command_line.specs.Words.{subject_view};
ghost use Rattle.nq_top.specs.Judging.{explain_judged, query_explained, subject_explained};
ghost use Rattle.nq_top.specs.Judging.{typed_or_explained};
ghost use Rattle.nq_top.specs.Reading.{QueryReading, Reading, term_read};
ghost use Rattle.nq_top.specs.Steps.{CanServe, GatherTells, InputCounts, Says, gathered_asks};

use crate::explain_sql::gather_sql;
use crate::explain_table::gather_table;
use crate::gather::Gathered;
use crate::inputs::fetch_text;
use crate::show::type_line;
use crate::texts::DEPTH;
use command_line::{InputRefusal, Subject};
use explanations::{explain_schema, explain_syntax, explain_type};
use nq_edge::Inputs;
use nq_model::{List, Memory, Schema, Term};
use nq_parser::parse;
use nq_types::{CheckFault, check, found_types};
use schema_reader::read_schema;
use std::alloc::Global;

/// The line of the type of a term, which the text of a file spells, or what explains the typing
/// rule that it breaks.
pub(crate) fn explain_term(
    alloc: Global,
    schema: &Schema,
    file: &[u8],
    text: &[u8],
    term: &Term,
) -> Result<List<u8>, Memory>
    ensures { IfOk result (Says (typed_or_explained schema.now file.now text.now
        (Ok (placed term.now)))) }
{
    match check(alloc, schema, term) {
        Ok(ty) => type_line(alloc, &ty),
        Err(CheckFault::Memory) => Err(Memory),
        Err(CheckFault::Ill { rule, place }) => {
            let found = found_types(alloc, schema, term)?;
            let types = found.as_slice();
            explain_type(alloc, file, text, u64::from(rule), place, schema, types)
        }
    }
}

// The line of the type of the query that the text of a file spells, or what explains why it is
// refused.
fn explain_text(
    alloc: Global,
    schema: &Schema,
    file: &[u8],
    text: &[u8],
) -> Result<List<u8>, Memory>
    ensures { IfOk result (λ made. (reading : QueryReading) →
        Says (typed_or_explained schema.now file.now text.now (term_read reading text.now))
        made) }
{
    match parse(alloc, text, DEPTH) {
        Ok(term) => explain_term(alloc, schema, file, text, &term),
        Err(fault) => explain_syntax(alloc, file, text, DEPTH, &fault, schema),
    }
}

// The same of the query under a name, which is fetched.
#[tactic(auto, using(crate::proofs::Steps::fetch_rules))]
fn gather_query<I: Inputs>(
    alloc: Global,
    inputs: &mut I,
    schema: &Schema,
    name: &str,
) -> Result<Gathered, InputRefusal>
    ensures counts { InputCounts (I.faults inputs.old) (I.faults inputs.new) result }
    ensures servable { IfOk result CanServe }
    ensures asks { IfOk result (λ gathered. gathered_asks gathered ≡ false) }
    ensures tells { IfSome (I.held inputs.old) (λ files. (reading : Reading) →
        GatherTells (query_explained reading files schema.now name.now)
        (I.fetched inputs.old) (I.fetched inputs.new) result) }
{
    let text = fetch_text(alloc, inputs, name)?;
    let made = explain_text(alloc, schema, name.as_bytes(), text.as_slice())?;
    Ok(Gathered::Text(made))
}

// The type of a subject over a schema, or what explains why its text is refused.
fn gather_subject<I: Inputs>(
    alloc: Global,
    inputs: &mut I,
    schema: &Schema,
    subject: Subject<'_>,
) -> Result<Gathered, InputRefusal>
    ensures counts { InputCounts (I.faults inputs.old) (I.faults inputs.new) result }
    ensures servable { IfOk result CanServe }
    ensures asks { IfOk result (λ gathered. gathered_asks gathered ≡ false) }
    ensures tells { IfSome (I.held inputs.old) (λ files. (reading : Reading) →
        GatherTells (subject_explained reading files schema.now (subject_view subject.entry))
        (I.fetched inputs.old) (I.fetched inputs.new) result) }
{
    match subject {
        Subject::Query(name) => gather_query(alloc, inputs, schema, name),
        Subject::Sql(name) => gather_sql(alloc, inputs, schema, name),
        Subject::Table(table, folder) => gather_table(alloc, inputs, schema, table, folder),
    }
}

/// Reads a schema, then a subject over it: the line of its type, or what explains why the schema or
/// the text of the subject is refused.
#[tactic(auto, using(crate::proofs::Steps::fetch_rules))]
pub fn gather_explained<I: Inputs>(
    alloc: Global,
    inputs: &mut I,
    schema: &str,
    subject: Subject<'_>,
) -> Result<Gathered, InputRefusal>
    ensures counts { InputCounts (I.faults inputs.old) (I.faults inputs.new) result }
    ensures servable { IfOk result CanServe }
    ensures asks { IfOk result (λ gathered. gathered_asks gathered ≡ false) }
    ensures tells { IfSome (I.held inputs.old) (λ files. (reading : Reading) →
        GatherTells (explain_judged reading files schema.now (subject_view subject.entry))
        (I.fetched inputs.old) (I.fetched inputs.new) result) }
{
    let text = fetch_text(alloc, inputs, schema)?;
    let bytes = text.as_slice();
    match read_schema(alloc, bytes) {
        Ok(found) => gather_subject(alloc, inputs, &found, subject),
        Err(fault) => {
            let made = explain_schema(alloc, schema.as_bytes(), bytes, &fault)?;
            Ok(Gathered::Text(made))
        }
    }
}
