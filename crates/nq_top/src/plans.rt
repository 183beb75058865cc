// What a server is asked: for the value of a query, for its summary over generated tables, and for
// the rows of an SQL text.
ghost use Rattle.std.specs.Prelude.{◌≡◌, ◌∷◌, [], IfOk};
ghost use Rattle.generated_inputs.specs.Sizes.{IsSize};
ghost use Rattle.nq_compile.specs.Links.{AnswersLink};
ghost use Rattle.nq_execute.specs.Plans.{IsServable, plan_view, row_writing_view, writing_view};
ghost use Rattle.nq_model.specs.Terms.{placed};
ghost use Rattle.nq_model.specs.Types.{type_tree};
ghost use Rattle.nq_top.specs.Plans.{drafted, draft_view, draft_to, question_to, sql_draft, CanServeOver, IsSoundOver, generated_plan, generated_question};
ghost use Rattle.nq_top.specs.Reading.{PlainReading};
ghost use Rattle.nq_top.specs.Steps.{HoldsPlan, IsQuery, typed_view};

use crate::texts::{SqlQuery, TypedQuery};
use generated_inputs::{generated_query, generated_schema, generated_tables};
use nq_compile::compile;
use nq_execute::{Finish, Indexes, Plan, RowWriting, Writing};
use nq_model::{ColumnType, List, Memory, Schema};
use sql_profile::Loaded;
use std::alloc::Global;

/// What a server is asked for a command, before its tables are read: the texts, in order, the types
/// of the columns of each, and what is written of the answers.
#[derive(Drop)]
pub struct Draft {
    pub texts: List<List<u8>>,
    pub columns: List<List<ColumnType>>,
    pub finish: Finish,
}

/// The plan of a draft over tables.
pub fn plan_of(draft: Draft, tables: List<Loaded>) -> Plan
    ensures { plan_view result ≡ drafted (draft_view draft) tables }
{
    Plan {
        tables,
        texts: draft.texts,
        columns: draft.columns,
        finish: draft.finish,
    }
}

/// The draft of a query whose value is written in a way.
pub fn query_draft(
    alloc: Global,
    schema: &Schema,
    query: TypedQuery,
    writing: Writing,
) -> Result<Draft, Memory>
    requires { IsQuery schema.now (typed_view query) }
    ensures servable { IfOk result (λ draft. CanServeOver schema.now (draft_view draft)) }
    ensures sound { IfOk result (λ draft.
        IsSoundOver schema.now (draft_view draft)
        (λ tables. question_to (writing_view writing) (typed_view query))) }
    ensures linked { IfOk result (λ draft.
        AnswersLink schema.now (type_tree query.ty) draft.texts) }
    ensures is { IfOk result (λ draft. (plain : PlainReading) →
        draft_view draft ≡ draft_to (writing_view writing) plain schema.now
        (placed query.term) (type_tree query.ty)) }
{
    let compiled = compile(alloc, schema, query.term)?;
    Ok(Draft {
        texts: compiled.texts,
        columns: compiled.columns,
        finish: Finish::Value {
            of: compiled.result,
            indexes: Indexes::Numbers,
            writing,
        },
    })
}

// A list of one item.
fn only<T: Drop>(alloc: Global, item: T) -> Result<List<T>, Memory>
    ensures { IfOk result (λ list. list ≡ item ∷ []) }
{
    let mut list = List::with_capacity(alloc, 1)?;
    list.push(item)?;
    Ok(list)
}

/// The draft of an SQL text whose rows are written in a way.
pub fn sql_draft(alloc: Global, asked: SqlQuery, writing: RowWriting) -> Result<Draft, Memory>
    ensures { IfOk result (λ draft.
        draft_view draft ≡ sql_draft (row_writing_view writing) asked.text asked.types) }
{
    let texts = only(alloc, asked.text)?;
    let columns = only(alloc, asked.types)?;
    Ok(Draft {
        texts,
        columns,
        finish: Finish::Rows(writing),
    })
}

/// The plan of the summary of the generated query over tables of a size.
pub fn generated_plan(alloc: Global, size: u64) -> Result<Plan, Memory>
    requires { IsSize size }
    ensures servable { IfOk result (λ plan. IsServable (plan_view plan)) }
    ensures holds { IfOk result (λ plan. (reading : PlainReading) →
        HoldsPlan (generated_plan reading size) generated_question plan) }
{
    let schema = generated_schema(alloc)?;
    let query = generated_query(alloc)?;
    let compiled = compile(alloc, &schema, query)?;
    let tables = generated_tables(alloc, size)?;
    Ok(Plan {
        tables,
        texts: compiled.texts,
        columns: compiled.columns,
        finish: Finish::Value {
            of: compiled.result,
            indexes: Indexes::Numbers,
            writing: Writing::Summary,
        },
    })
}
