// The SQL texts of the lineage of a query: what a server is asked.
ghost use Rattle.std.specs.Prelude.{◌≡◌, IfOk};
ghost use Rattle.traced_meaning.specs.NumberedTables.{HasNoNumbers};
ghost use Rattle.nq_model.specs.Terms.{placed};
ghost use Rattle.nq_top.specs.Plans.{draft_view};
ghost use Rattle.nq_top.specs.Reading.{PlainReading};
ghost use Rattle.nq_top.specs.Steps.{IsQuery, typed_view};
ghost use Rattle.nq_top.specs.Traced.{CanServeNumbered, IsSoundNumbered, lineage_draft};

use crate::plans::Draft;
use crate::texts::TypedQuery;
use lineage_compile::compile_lineage;
use nq_execute::{Finish, Indexes, TraceWriting, Writing, writing_laws};
use nq_model::{Memory, Schema};
use std::alloc::Global;
use traced_meaning::trace_laws;

/// The draft of the lineage of a query, over tables with the numbers of their rows, written in a
/// way.
pub fn lineage_draft(
    alloc: Global,
    schema: &Schema,
    query: TypedQuery,
    writing: TraceWriting,
) -> Result<Draft, Memory>
    requires query { IsQuery schema.now (typed_view query) }
    requires free { HasNoNumbers schema.now }
    ensures servable { IfOk result (λ draft. CanServeNumbered schema.now (draft_view draft)) }
    ensures sound { IfOk result (λ draft.
        IsSoundNumbered writing schema.now (draft_view draft) (placed query.term)) }
    ensures is { IfOk result (λ draft. (plain : PlainReading) →
        draft_view draft ≡ lineage_draft writing plain schema.now (typed_view query)) }
{
    trace_laws();
    writing_laws();
    let made = compile_lineage(alloc, schema, query.term)?;
    Ok(Draft {
        texts: made.texts,
        columns: made.columns,
        finish: Finish::Value {
            of: made.result,
            indexes: Indexes::Numbers,
            writing: Writing::Traced(made.form, writing),
        },
    })
}
