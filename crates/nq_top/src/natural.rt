// The SQL texts that name bags by keys: what a server is asked, and what is shown.
ghost use Rattle.std.specs.Prelude.{◌≡◌, IfOk};
ghost use Rattle.nq_execute.specs.Plans.{text as canonical_way};
ghost use Rattle.nq_top.specs.Natural.{ShowsNatural, StandsFor, natural_draft, natural_read};
ghost use Rattle.nq_top.specs.Natural.{natural_view};
ghost use Rattle.nq_top.specs.Plans.{CanServeOver, IsSoundOver, draft_view, question_to};
ghost use Rattle.nq_top.specs.Reading.{PlainReading};
ghost use Rattle.nq_top.specs.Steps.{IsQuery, MakesSays, ReadSays, typed_view};

use crate::plans::Draft;
use crate::texts::TypedQuery;
use command_line::{InputRefusal, Refused, frames};
use natural_compile::{KeyedTexts, compile_by_keys};
use natural_index::NaturalFault;
use nq_execute::{Finish, Indexes, Writing};
use nq_model::{List, Schema};
use std::alloc::Global;

// The SQL texts of a query in which a bag is named by keys, or the table that lacks one.
fn keyed_texts(
    alloc: Global,
    schema: &Schema,
    query: TypedQuery,
) -> Result<KeyedTexts, InputRefusal>
    requires { IsQuery schema.now (typed_view query) }
    ensures stands { IfOk result (StandsFor schema.now (typed_view query)) }
    ensures says { (plain : PlainReading) →
        ReadSays (natural_view schema.now (typed_view query))
        (natural_read plain schema.now (typed_view query)) result }
{
    match compile_by_keys(alloc, schema, query.term) {
        Ok(made) => Ok(made),
        Err(NaturalFault::Memory) => Err(InputRefusal::Memory),
        Err(NaturalFault::NoKey { table }) => Err(InputRefusal::Refused(Refused::NoKey(table))),
    }
}

/// The draft of a query whose canonical text is written, by texts that name bags by keys; or the
/// table that lacks one.
pub fn natural_draft(
    alloc: Global,
    schema: &Schema,
    query: TypedQuery,
) -> Result<Draft, InputRefusal>
    requires { IsQuery schema.now (typed_view query) }
    ensures servable { IfOk result (λ draft. CanServeOver schema.now (draft_view draft)) }
    ensures sound { IfOk result (λ draft.
        IsSoundOver schema.now (draft_view draft)
        (λ tables. question_to canonical_way (typed_view query))) }
    ensures says { (plain : PlainReading) →
        MakesSays (λ natural draft. draft_view draft ≡ natural_draft natural)
        (natural_read plain schema.now (typed_view query)) result }
{
    let made = keyed_texts(alloc, schema, query)?;
    Ok(Draft {
        texts: made.texts,
        columns: made.columns,
        finish: Finish::Value {
            of: made.result,
            indexes: Indexes::Keys(made.keys),
            writing: Writing::Text,
        },
    })
}

/// A frame for each path of the type of a query with its SQL text in which bags are named by keys;
/// or the table that lacks one.
pub fn natural_text(
    alloc: Global,
    schema: &Schema,
    query: TypedQuery,
) -> Result<List<u8>, InputRefusal>
    requires { IsQuery schema.now (typed_view query) }
    ensures { (plain : PlainReading) → MakesSays (λ natural text. ShowsNatural text natural)
        (natural_read plain schema.now (typed_view query)) result }
{
    let made = keyed_texts(alloc, schema, query)?;
    let text = frames(alloc, &made.paths, &made.texts)?;
    Ok(text)
}
