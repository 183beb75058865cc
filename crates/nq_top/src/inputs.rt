// Reads the inputs that a command names, each judged before the next is fetched.
ghost use Rattle.std.specs.Prelude.{◌≡◌, ◌≤◌, IfOk, IfSome, length};
ghost use Rattle.nq_compile.specs.Shreds.{IsScopedText};
ghost use Rattle.nq_edge.specs.Edge.{bytes_at};
ghost use Rattle.nq_model.specs.Tables.{IsProperSchema};
ghost use Rattle.nq_model.specs.declared.table.Schema.{Schema as SchemaTree};
ghost use Rattle.traced_meaning.specs.NumberedTables.{HasNoNumbers};
ghost use Rattle.nq_top.specs.Judging.{Judgement, schema_then, query_then, sql_then};
ghost use Rattle.nq_top.specs.Limits.{text_limit};
ghost use Rattle.nq_top.specs.Reading.{Reading, TypedTerm, SqlColumns};
ghost use Rattle.nq_top.specs.Steps.{InputCounts, StepTells, FetchSays, FetchNames, IsQuery, typed_view, sql_view};

use crate::texts::{SqlQuery, TypedQuery, query_of, schema_of, sql_of};
use command_line::{InputRefusal, Refused};
use nq_edge::{FetchFault, Inputs};
use nq_model::{List, Schema, Text};
use std::alloc::Global;

/// The most bytes of a schema, of a query and of an SQL text.
const TEXT_LIMIT: u64 = 1_048_576;

/// The bytes of an input. Its name is handed over, since a call that failed leaves no room for want
/// of memory.
pub fn fetch_input<I: Inputs>(
    alloc: Global,
    inputs: &mut I,
    name: Text,
    limit: u64,
) -> Result<List<u8>, InputRefusal>
    ensures counts { InputCounts (I.faults inputs.old) (I.faults inputs.new) result }
    ensures same { I.held inputs.new ≡ I.held inputs.old }
    ensures names { FetchNames name (I.fetched inputs.old) (I.fetched inputs.new) result }
    ensures says { IfSome (I.held inputs.old) (λ files.
        FetchSays (bytes_at files name) name limit result) }
    ensures bound { IfOk result (λ bytes. length bytes ≤ limit) }
{
    match inputs.fetch(alloc, name.as_str(), limit) {
        Ok(bytes) => Ok(bytes),
        Err(FetchFault::Memory) => Err(InputRefusal::Memory),
        Err(FetchFault::Failed) => Err(InputRefusal::Failed(name)),
        Err(FetchFault::Long) => Err(InputRefusal::Refused(Refused::TooLong(name, limit))),
    }
}

/// The bytes of a schema, of a query or of an SQL text.
pub fn fetch_text<I: Inputs>(
    alloc: Global,
    inputs: &mut I,
    name: &str,
) -> Result<List<u8>, InputRefusal>
    ensures counts { InputCounts (I.faults inputs.old) (I.faults inputs.new) result }
    ensures same { I.held inputs.new ≡ I.held inputs.old }
    ensures names { FetchNames name.now (I.fetched inputs.old) (I.fetched inputs.new) result }
    ensures says { IfSome (I.held inputs.old) (λ files.
        FetchSays (bytes_at files name.now) name.now text_limit result) }
{
    let copy = Text::from_str(alloc, name)?;
    fetch_input(alloc, inputs, copy, TEXT_LIMIT)
}

/// Reads a schema.
#[tactic(auto, using(crate::proofs::Steps::fetch_rules))]
pub fn read_schema<I: Inputs>(
    alloc: Global,
    inputs: &mut I,
    name: &str,
) -> Result<Schema, InputRefusal>
    ensures counts { InputCounts (I.faults inputs.old) (I.faults inputs.new) result }
    ensures same { I.held inputs.new ≡ I.held inputs.old }
    ensures proper { IfOk result IsProperSchema }
    ensures free { IfOk result HasNoNumbers }
    ensures leads { IfSome (I.held inputs.old) (λ files.
        (reading : Reading) (next : SchemaTree → Judgement)
        → StepTells (schema_then reading files name.now next) next
        (I.fetched inputs.old) (I.fetched inputs.new) result) }
{
    let text = fetch_text(alloc, inputs, name)?;
    schema_of(alloc, text.as_slice())
}

/// Reads a query over a schema.
#[tactic(auto, using(crate::proofs::Steps::fetch_rules))]
pub fn read_query<I: Inputs>(
    alloc: Global,
    inputs: &mut I,
    schema: &Schema,
    name: &str,
) -> Result<TypedQuery, InputRefusal>
    requires { IsProperSchema schema.now }
    ensures counts { InputCounts (I.faults inputs.old) (I.faults inputs.new) result }
    ensures same { I.held inputs.new ≡ I.held inputs.old }
    ensures query { IfOk result (λ query. IsQuery schema.now (typed_view query)) }
    ensures leads { IfSome (I.held inputs.old) (λ files.
        (reading : Reading) (next : TypedTerm → Judgement)
        → StepTells (query_then reading files schema.now name.now next)
        (λ query. next (typed_view query))
        (I.fetched inputs.old) (I.fetched inputs.new) result) }
{
    let text = fetch_text(alloc, inputs, name)?;
    query_of(alloc, schema, text.as_slice())
}

/// Reads an SQL text over a schema.
#[tactic(auto, using(crate::proofs::Steps::fetch_rules))]
pub fn read_sql<I: Inputs>(
    alloc: Global,
    inputs: &mut I,
    schema: &Schema,
    name: &str,
) -> Result<SqlQuery, InputRefusal>
    requires { IsProperSchema schema.now }
    ensures counts { InputCounts (I.faults inputs.old) (I.faults inputs.new) result }
    ensures same { I.held inputs.new ≡ I.held inputs.old }
    ensures scoped { IfOk result (λ asked. IsScopedText schema.now asked.types asked.text) }
    ensures leads { IfSome (I.held inputs.old) (λ files.
        (reading : Reading) (next : SqlColumns → Judgement)
        → StepTells (sql_then reading files schema.now name.now next)
        (λ asked. next (sql_view asked))
        (I.fetched inputs.old) (I.fetched inputs.new) result) }
{
    let text = fetch_text(alloc, inputs, name)?;
    sql_of(alloc, schema, text)
}
