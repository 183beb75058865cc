// What is written of answers.
ghost use Rattle.std.specs.Prelude.{◌≡◌, All, IfOk};
ghost use Rattle.nq_model.specs.Cells.{RowFits};
ghost use Rattle.nq_model.specs.Types.{type_tree, bag};
ghost use Rattle.nq_model.specs.Values.{nested};
ghost use Rattle.nq_ir.specs.NormalForms.{element_type};
ghost use Rattle.nq_ir.specs.Parts.{element_types};
ghost use Rattle.stitcher.specs.Stitching.{rows_of};
ghost use Rattle.natural_keys.specs.Schemes.{keys_scheme};
ghost use Rattle.nq_execute.specs.Plans.{AreOfType, CanFinish, columns_by, finish_view, finished};
ghost use Rattle.nq_execute.specs.Plans.{indexes_view, keys as by_keys, numbers as by_numbers};
ghost use Rattle.nq_execute.specs.Plans.{row_text_by, row_writing_view, text_by, value_by};
ghost use Rattle.nq_execute.specs.Plans.{trace_text_by, value_text, writing_view};
ghost use Rattle.lineage.specs.TracedTrees.{traced};
ghost use Rattle.nq_execute.specs.Serving.{Fit};

use crate::plan::{Finish, Indexes, RowWriting, TraceWriting, Writing};
use crate::summary::summarise;
use answer_text::answer_text;
use canon::{row_places, sort_deep, write, write_row_lines};
use lineage::{Traced, decode, recorded, write_traced};
use natural_keys::NaturalKeys;
use nq_json::{write_json, write_json_rows};
use nq_model::{ColumnType, List, Memory, Ty, Value};
use rows::Rows;
use sql_profile::Answer;
use std::alloc::Global;
use stitcher::{FlatNumbers, stitch};

// The value of a bag type to which answers, one for each path of the type, stitch by tag and
// number.
fn value_by_numbers(alloc: Global, of: &Ty, answers: List<Answer>) -> Result<Value, Memory>
    requires bag { type_tree of.now ≡ bag (element_type (type_tree of.now)) }
    requires fit { Fit (columns_by by_numbers (type_tree of.now)) answers }
    ensures { IfOk result (λ value.
        nested value ≡ value_by by_numbers (type_tree of.now) (rows_of answers)) }
{
    let scheme = FlatNumbers::new(alloc, of)?;
    stitch(alloc, &scheme, of, &answers)
}

// The value of a bag type to which answers, one for each path of the type, stitch by keys.
fn value_by_keys(
    alloc: Global,
    of: &Ty,
    keys: &NaturalKeys,
    answers: List<Answer>,
) -> Result<Value, Memory>
    requires bag { type_tree of.now ≡ bag (element_type (type_tree of.now)) }
    requires own { (keys_scheme keys.now).elements ≡ element_types (type_tree of.now) }
    requires fit { Fit (columns_by (by_keys (keys_scheme keys.now)) (type_tree of.now))
        answers }
    ensures { IfOk result (λ value. nested value
        ≡ value_by (by_keys (keys_scheme keys.now)) (type_tree of.now) (rows_of answers)) }
{
    stitch(alloc, keys, of, &answers)
}

// What is written of a traced value.
fn trace_text_by(alloc: Global, way: TraceWriting, told: Traced) -> Result<List<u8>, Memory>
    ensures { IfOk result (λ text. text ≡ trace_text_by way (traced told)) }
{
    match way {
        TraceWriting::Text => write_traced(alloc, told),
        TraceWriting::Json => {
            let value = recorded(alloc, told)?;
            write_json(alloc, &value)
        }
    }
}

// What is written of a value.
fn text_by(alloc: Global, of: &Ty, writing: &Writing, value: Value) -> Result<List<u8>, Memory>
    ensures { IfOk result (λ text.
        text ≡ text_by (writing_view writing.now) (type_tree of.now) (nested value)) }
{
    match writing {
        Writing::Text => {
            let sorted = sort_deep(alloc, value)?;
            write(alloc, &sorted)
        }
        Writing::Summary => summarise(alloc, of, value),
        Writing::Json => {
            let sorted = sort_deep(alloc, value)?;
            write_json(alloc, &sorted)
        }
        Writing::Traced(form, way) => {
            let told = decode(alloc, form, &value)?;
            trace_text_by(alloc, *way, told)
        }
    }
}

// What is written of the value by tag and number. Its canonical text is written from the answers,
// and no value is built.
#[tactic(auto, unfolding(crate::specs::Plans::value_text))]
fn numbered_text(
    alloc: Global,
    of: &Ty,
    writing: &Writing,
    answers: List<Answer>,
) -> Result<List<u8>, Memory>
    requires bag { type_tree of.now ≡ bag (element_type (type_tree of.now)) }
    requires fit { Fit (columns_by by_numbers (type_tree of.now)) answers }
    ensures { IfOk result (λ text. text ≡ value_text (type_tree of.now)
        by_numbers (writing_view writing.now) (rows_of answers)) }
{
    match writing {
        Writing::Text => answer_text(alloc, of, answers),
        Writing::Summary | Writing::Json | Writing::Traced(_, _) => {
            let value = value_by_numbers(alloc, of, answers)?;
            text_by(alloc, of, writing, value)
        }
    }
}

// What is written of the value by keys.
#[tactic(auto, unfolding(crate::specs::Plans::value_text))]
fn keyed_text(
    alloc: Global,
    of: &Ty,
    keys: &NaturalKeys,
    writing: &Writing,
    answers: List<Answer>,
) -> Result<List<u8>, Memory>
    requires bag { type_tree of.now ≡ bag (element_type (type_tree of.now)) }
    requires own { (keys_scheme keys.now).elements ≡ element_types (type_tree of.now) }
    requires fit { Fit (columns_by (by_keys (keys_scheme keys.now)) (type_tree of.now))
        answers }
    ensures { IfOk result (λ text. text ≡ value_text (type_tree of.now)
        (by_keys (keys_scheme keys.now)) (writing_view writing.now) (rows_of answers)) }
{
    let value = value_by_keys(alloc, of, keys, answers)?;
    text_by(alloc, of, writing, value)
}

// What is written of the value.
fn value_text(
    alloc: Global,
    of: &Ty,
    indexes: &Indexes,
    writing: &Writing,
    answers: List<Answer>,
) -> Result<List<u8>, Memory>
    requires bag { type_tree of.now ≡ bag (element_type (type_tree of.now)) }
    requires own { AreOfType (type_tree of.now) (indexes_view indexes.now) }
    requires fit { Fit (columns_by (indexes_view indexes.now) (type_tree of.now)) answers }
    ensures { IfOk result (λ text. text ≡ value_text (type_tree of.now)
        (indexes_view indexes.now) (writing_view writing.now) (rows_of answers)) }
{
    match indexes {
        Indexes::Numbers => numbered_text(alloc, of, writing, answers),
        Indexes::Keys(keys) => keyed_text(alloc, of, keys, writing, answers),
    }
}

// What is written of rows, which fit these types.
fn row_text_by(
    alloc: Global,
    writing: &RowWriting,
    rows: &Rows,
    types: &[ColumnType],
) -> Result<List<u8>, Memory>
    requires { All (RowFits types.now) rows.now }
    ensures { IfOk result (λ text. text ≡ row_text_by (row_writing_view writing.now) rows.now) }
{
    match writing {
        RowWriting::Lines => write_row_lines(alloc, rows, types),
        RowWriting::Arrays => {
            let places = row_places(alloc, rows, types)?;
            write_json_rows(alloc, rows, places.as_slice())
        }
    }
}

/// What is written of answers, wherever they come from: those to the texts of a plan, in order,
/// each of which fits the types of its columns. Fails only if memory runs out.
#[tactic(auto, using(crate::proofs::Finishes::finish_rules))]
pub fn write_answers(
    alloc: Global,
    finish: &Finish,
    columns: &[List<ColumnType>],
    answers: List<Answer>,
) -> Result<List<u8>, Memory>
    requires finishable { CanFinish (finish_view finish.now) columns.now }
    requires fit { Fit columns.now answers }
    ensures { IfOk result (λ text. text ≡ finished (finish_view finish.now) (rows_of answers)) }
{
    match finish {
        Finish::Value {
            of,
            indexes,
            writing,
        } => value_text(alloc, of, indexes, writing, answers),
        Finish::Rows(writing) => {
            let rows = &answers.as_slice()[0].rows;
            row_text_by(alloc, writing, rows, columns[0].as_slice())
        }
    }
}
