// Reads answers that were made elsewhere, and writes the value to which they stitch.
ghost use Rattle.std.specs.Prelude.{◌≡◌, ◌+◌, ◌<◌, ◌^◌, ◌++◌, ◌∷◌, [], All, List, false, length, IfErr, IfOk, IfSome, Ok};
ghost use Rattle.nq_execute.specs.Plans.{CanFinish, finished, finish_view, writing_view};
ghost use Rattle.nq_execute.specs.Serving.{Fit};
ghost use Rattle.nq_ir.specs.Parts.{element_types};
ghost use Rattle.nq_model.specs.Cells.{RowFits};
ghost use Rattle.nq_model.specs.Types.{TypeTree, bag, type_tree};
ghost use Rattle.sql_profile.specs.declared.answer.Answer.{Answer as Given};
ghost use Rattle.stitcher.specs.FlatNumbers.{flat_numbers};
ghost use Rattle.stitcher.specs.Stitching.{rows_of, AreAnswersOf};
ghost use Rattle.nq_top.specs.Foreign.{AnswersBehind};
ghost use Rattle.nq_top.specs.Judging.{Judgement, answers_then, stitch_judged};
ghost use Rattle.nq_top.specs.Lines.{answer_file_of};
ghost use Rattle.nq_top.specs.Reading.{Reading, answer_read, links_read};
ghost use Rattle.nq_top.specs.Steps.{InputCounts, StepTells, ReadSays, Refuses, GatherTells, CanServe, gathered_asks, IsQuery, typed_view};

use crate::gather::Gathered;
use crate::inputs::fetch_input;
use crate::plans::{Draft, query_draft};
use crate::tables::TABLES_LIMIT;
use crate::texts::TypedQuery;
use command_line::{InputRefusal, Refused};
use foreign_answers::{AnswerFault, LinkFault, links, read_answer};
use nq_edge::Inputs;
use nq_execute::{Writing, write_answers};
use nq_model::{ColumnType, List, Memory, Schema, Text, Ty};
use sql_profile::Answer;
use std::alloc::Global;

// The name of the text of an answer.
fn answer_file_of(alloc: Global, folder: &str, number: u64) -> Result<Text, Memory>
    ensures { IfOk result (λ name. name ≡ answer_file_of folder.now number) }
{
    let name = format!(in alloc; "{folder}/{number}.csv")?;
    Ok(Text::from_string(name))
}

// The answer of a number that a text gives, or its fault. The text is given up once it was read.
#[tactic(auto, using(crate::proofs::AnswerReadings::answer_rules))]
fn answer_of(
    alloc: Global,
    number: u64,
    types: &[ColumnType],
    text: List<u8>,
) -> Result<Answer, InputRefusal>
    requires { 1 < length types.now }
    ensures says { ReadSays (λ answer. answer) (answer_read number types.now text) result }
    ensures fit { IfOk result (λ answer. All (RowFits types.now) answer.rows) }
{
    match read_answer(alloc, types, text.as_slice()) {
        Ok(answer) => Ok(answer),
        Err(AnswerFault::Memory) => Err(InputRefusal::Memory),
        Err(fault) => Err(InputRefusal::Refused(Refused::Answer(number, fault))),
    }
}

// The answers that were read, with one more.
fn with_answer(mut done: List<Answer>, answer: Answer) -> Result<List<Answer>, Memory>
    ensures { IfOk result (λ answers. answers ≡ done ++ answer ∷ []) }
{
    done.push(answer)?;
    Ok(done)
}

// Reads the texts of the answers that are left, with columns of these types, each before the next
// is fetched.
#[tactic(auto, using(crate::proofs::AnswerReadings::answers_rules))]
fn gather_answers<I: Inputs>(
    alloc: Global,
    inputs: &mut I,
    folder: &str,
    columns: &[List<ColumnType>],
    left: u64,
    done: List<Answer>,
) -> Result<List<Answer>, InputRefusal>
    requires two { All (λ types. 1 < length types) columns.now }
    requires counted { length done + length columns.now < 2 ^ 64 }
    ensures counts { InputCounts (I.faults inputs.old) (I.faults inputs.new) result }
    ensures reads { IfOk result (AnswersBehind done columns.now) }
    ensures leads { IfSome (I.held inputs.old) (λ files. (next : List Given → Judgement) →
        StepTells (answers_then files folder.now columns.now left done next) next
        (I.fetched inputs.old) (I.fetched inputs.new) result) }
{
    let Some((types, later)) = columns.split_first() else {
        return Ok(done);
    };
    let number = done.len() as u64 + 1;
    let name = answer_file_of(alloc, folder, number)?;
    let text = fetch_input(alloc, inputs, name, left)?;
    let rest = left - text.len() as u64;
    let answer = answer_of(alloc, number, types.as_slice(), text)?;
    let answers = with_answer(done, answer)?;
    gather_answers(alloc, inputs, folder, later, rest, answers)
}

// That answers of a type are linked, or their first fault.
#[tactic(auto, using(crate::proofs::AnswerReadings::link_rules))]
fn judge_links(alloc: Global, of: &Ty, answers: &List<Answer>) -> Result<(), InputRefusal>
    requires bag { (element : TypeTree) × (type_tree of.now ≡ bag element) }
    requires answers { AreAnswersOf (flat_numbers
        (element_types (type_tree of.now))) (type_tree of.now) (rows_of answers.now) }
    ensures { ReadSays (λ done. answers.now) (links_read (type_tree of.now) answers.now) result }
{
    match links(alloc, of, answers) {
        Ok(()) => Ok(()),
        Err(LinkFault::Memory) => Err(InputRefusal::Memory),
        Err(fault) => Err(InputRefusal::Refused(Refused::Links(fault))),
    }
}

// What is written of answers to the texts of a draft, if they are linked.
fn linked_text(
    alloc: Global,
    of: &Ty,
    draft: &Draft,
    answers: List<Answer>,
) -> Result<List<u8>, InputRefusal>
    requires bag { (element : TypeTree) × (type_tree of.now ≡ bag element) }
    requires answers { AreAnswersOf (flat_numbers
        (element_types (type_tree of.now))) (type_tree of.now) (rows_of answers) }
    requires finishable { CanFinish (finish_view draft.now.finish) draft.now.columns }
    requires fit { Fit draft.now.columns answers }
    ensures text { IfOk result (λ text. text
        ≡ finished (finish_view draft.now.finish) (rows_of answers)) }
    ensures linked { IfOk result (λ text. links_read (type_tree of.now) answers ≡ Ok answers) }
    ensures refused { IfErr result (Refuses (links_read (type_tree of.now) answers)) }
{
    judge_links(alloc, of, &answers)?;
    let text = write_answers(alloc, &draft.finish, draft.columns.as_slice(), answers)?;
    Ok(text)
}

/// Reads the answers of a folder to the texts that are shown for a query, each before the next is
/// fetched, and writes the value to which they stitch in a way, if they are linked.
pub fn gather_stitched<I: Inputs>(
    alloc: Global,
    inputs: &mut I,
    folder: &str,
    schema: &Schema,
    query: TypedQuery,
    writing: Writing,
) -> Result<Gathered, InputRefusal>
    requires { IsQuery schema.now (typed_view query) }
    ensures counts { InputCounts (I.faults inputs.old) (I.faults inputs.new) result }
    ensures servable { IfOk result CanServe }
    ensures asks { IfOk result (λ gathered. gathered_asks gathered ≡ false) }
    ensures tells { IfSome (I.held inputs.old) (λ files. (reading : Reading) →
        GatherTells (stitch_judged (writing_view writing) reading.plain files folder.now
        schema.now (typed_view query))
        (I.fetched inputs.old) (I.fetched inputs.new) result) }
{
    let of = query.ty.copy(alloc)?;
    let draft = query_draft(alloc, schema, query, writing)?;
    let columns = draft.columns.as_slice();
    let done = List::new(alloc);
    let answers = gather_answers(alloc, inputs, folder, columns, TABLES_LIMIT, done)?;
    let text = linked_text(alloc, &of, &draft, answers)?;
    Ok(Gathered::Text(text))
}
