// Where the rows of a nested value come from.
ghost use Rattle.std.specs.Prelude.{◌≡◌, ◌<◌, ◌-◌, [], All, IfOk, OnOk, get_or, length, map};
ghost use Rattle.nq_model.specs.CellRefs.{cell_seen};
ghost use Rattle.nq_model.specs.Types.{type_tree};
ghost use Rattle.nq_model.specs.Values.{nested, base};
ghost use Rattle.nq_model.specs.NamedRows.{no_cell};
ghost use Rattle.stitcher.specs.Schemes.{IsLeaf, IsPath, IsSlot, element_of};
ghost use Rattle.stitcher.specs.Stitching.{rows_of, AreAnswersOf, AreFitting, AreInGroups, IsReady};
ghost use Rattle.stitcher.specs.Walks.{row_of, past_leaf, past_slot};

use crate::groups::{Groups, group};
use crate::scheme::IndexScheme;
use crate::spans::push_spans;
use crate::walk::Walk;
use nq_model::{CellRef, List, Memory, Text, Ty, Value};
use rows::Rows;
use sql_profile::Answer;
use std::alloc::Global;

/// A scheme with answers, one for each path: the rows of each are in groups, and the spans of the
/// paths are known.
#[derive(Drop)]
pub(crate) struct Source<'a, S: IndexScheme> {
    scheme: &'a S,
    answers: &'a [Answer],
    groups: List<Groups<S::Index>>,
    spans: List<u64>,
}

// The rows of each answer by their outer index.
fn groups_of<S: IndexScheme>(
    alloc: Global,
    scheme: &S,
    answers: &[Answer],
) -> Result<List<Groups<S::Index>>, Memory>
    requires paths { length answers.now ≡ length (S.scheme scheme.now).elements }
    requires fits { AreFitting (S.scheme scheme.now) (rows_of answers.now) }
    ensures { IfOk result (λ groups.
        AreInGroups S.Index.eq (S.scheme scheme.now) (rows_of answers.now) groups) }
{
    let mut groups = List::with_capacity(alloc, answers.len())?;
    for path in 0..answers.len() {
        groups.push(group(alloc, scheme, path as u64, &answers[path].rows)?)?;
    }
    Ok(groups)
}

// The value of a cell.
fn value_of(alloc: Global, cell: &CellRef<'_>) -> Result<Value, Memory>
    ensures { IfOk result (λ value. nested value ≡ base (cell_seen cell.now)) }
{
    match cell {
        CellRef::Int(number) => Ok(Value::Int(*number)),
        CellRef::Bool(truth) => Ok(Value::Bool(*truth)),
        CellRef::Text(text) => Ok(Value::Text(Text::from_str(alloc, text)?)),
    }
}

// The rows of the answer at a path.
fn rows_at(answers: &[Answer], path: u64) -> &Rows
    requires { path < length answers.now }
    ensures { result.now ≡ get_or (rows_of answers.now) path [] }
{
    &answers[path as usize].rows
}

impl<'a, S: IndexScheme> Source<'a, S> {
    /// Answers of a type, one for each path.
    pub(crate) fn new(
        alloc: Global,
        scheme: &'a S,
        of: &Ty,
        answers: &'a [Answer],
    ) -> Result<Source<'a, S>, Memory>
        requires { AreAnswersOf (S.scheme scheme.now) (type_tree of.now) (rows_of answers.now) }
        ensures same { IfOk result
            (λ source. (source.scheme.now ≡ scheme.now) × (source.answers.now ≡ answers.now)) }
        ensures ready { IfOk result
            (λ source. IsReady S.Index.eq (S.scheme source.scheme.now) (rows_of source.answers.now)
            source.groups source.spans) }
    {
        let mut spans = List::new(alloc);
        push_spans(of, &mut spans)?;
        let groups = groups_of(alloc, scheme, answers)?;
        Ok(Source {
            scheme,
            answers,
            groups,
            spans,
        })
    }

    /// The value of the base part where a walk stands, which is then past it.
    pub(crate) fn base(&self, alloc: Global, walk: &mut Walk) -> Result<Value, Memory>
        requires ready { IsReady S.Index.eq (S.scheme self.now.scheme.now)
            (rows_of self.now.answers.now) self.now.groups self.now.spans }
        requires leaf { IsLeaf (S.scheme self.now.scheme.now) walk.old.path walk.old.leaf }
        requires row { walk.old.row < length
            (get_or (rows_of self.now.answers.now) walk.old.path []) }
        ensures value { IfOk result
            (λ value. nested value
            ≡ base (get_or (row_of (rows_of self.now.answers.now) walk.old)
            ((S.scheme self.now.scheme.now).base walk.old.path walk.old.leaf - 1) no_cell)) }
        ensures past { OnOk result (walk.new ≡ past_leaf walk.old) }
    {
        let column = self.scheme.base(walk.path, walk.leaf) - 1;
        let rows = rows_at(self.answers, walk.path);
        let value = value_of(alloc, &rows.cell(walk.row, column as usize))?;
        walk.leaf = walk.leaf.checked_add(1).ok_or(Memory)?;
        Ok(value)
    }

    /// The index of the inner bag where a walk stands, which is then past it.
    pub(crate) fn inner(&self, alloc: Global, walk: &mut Walk) -> Result<S::Index, Memory>
        requires ready { IsReady S.Index.eq (S.scheme self.now.scheme.now)
            (rows_of self.now.answers.now) self.now.groups self.now.spans }
        requires slot { IsSlot (S.scheme self.now.scheme.now) walk.old.path walk.old.slot }
        requires row { walk.old.row < length
            (get_or (rows_of self.now.answers.now) walk.old.path []) }
        requires path { IsPath (S.scheme self.now.scheme.now) walk.old.inner }
        ensures index { IfOk result
            (λ index. index ≡ (S.scheme self.now.scheme.now).inner walk.old.path walk.old.slot
            (row_of (rows_of self.now.answers.now) walk.old)) }
        ensures past { OnOk result (walk.new
            ≡ past_slot walk.old (element_of
            (S.scheme self.now.scheme.now).elements walk.old.inner)) }
    {
        let rows = rows_at(self.answers, walk.path);
        let index = self
            .scheme
            .inner(alloc, walk.path, walk.slot, rows, walk.row)?;
        walk.slot = walk.slot.checked_add(1).ok_or(Memory)?;
        let span = self.spans.as_slice()[walk.inner as usize];
        walk.inner = walk.inner.checked_add(span).ok_or(Memory)?;
        Ok(index)
    }

    /// The groups of the rows at a path.
    pub(crate) fn groups(&self, path: u64) -> &Groups<S::Index>
        requires { path < length self.now.groups }
        ensures { result.now ≡ get_or self.now.groups path result.now }
    {
        &self.groups.as_slice()[path as usize]
    }
}
