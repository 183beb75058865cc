// Stitching by search: for each bag, all rows of its answer are looked at.
ghost use Rattle.std.specs.Prelude.{◌≡◌, ◌<◌, ◌-◌, [], IfOk, get_or, length, map};
ghost use Rattle.nq_model.specs.CellRefs.{cell_seen};
ghost use Rattle.nq_model.specs.NamedRows.{no_cell};
ghost use Rattle.nq_model.specs.Types.{TypeTree, type_tree, field_types_of, fields_view, bag, rec};
ghost use Rattle.nq_model.specs.Values.{nested, base, fields_of, fields_view as values_view};
ghost use Rattle.nq_ir.specs.Building.{built};
ghost use Rattle.stitcher.specs.Schemes.{IsLeaf, IsSlot, answers as source, stitched};
ghost use Rattle.stitcher.specs.Stitching.{rows_of, AreAnswersOf};
ghost use Rattle.stitcher.specs.Walks.{AreAt};
ghost use Rattle.reference_stitching.specs.Places.{AreGiven, Stands, row_of, value_at, fields_at};

use crate::place::{Place, behind, whole};
use nq_model::{CellRef, Label, List, Memory, Text, Ty, Value};
use rows::Rows;
use sql_profile::Answer;
use std::alloc::Global;
use stitcher::IndexScheme;

/// The nested value that answers stand for, one for each path of a bag type, by the definition: for
/// each bag, all rows of its answer are looked at, and those whose outer index is the bag's give
/// its elements, in row order. Fails only if memory runs out.
///
/// After Cheney, Lindley and Wadler, "Query Shredding", SIGMOD 2014.
pub fn stitch_by_search<S: IndexScheme>(
    alloc: Global,
    scheme: &S,
    of: &Ty,
    answers: &[Answer],
) -> Result<Value, Memory>
    requires bag { (element : TypeTree) × (type_tree of.now ≡ bag element) }
    requires answers { AreAnswersOf (S.scheme scheme.now) (type_tree of.now) (rows_of answers.now) }
    ensures { IfOk result (λ value. (element : TypeTree) → type_tree of.now ≡ bag element
        → nested value ≡ stitched (S.scheme scheme.now) element (rows_of answers.now)) }
{
    match of {
        Ty::Bag(element) => {
            let top = scheme.top();
            let elements = elements(alloc, scheme, answers, element, 0, &top)?;
            Ok(Value::Bag(elements))
        }
        Ty::Int | Ty::Bool | Ty::Text | Ty::Rec(_) | Ty::Fun(_, _) => {
            Ok(Value::Bag(List::new(alloc)))
        }
    }
}

// The elements at a path under an index.
#[cycle(element)]
fn elements<S: IndexScheme>(
    alloc: Global,
    scheme: &S,
    answers: &[Answer],
    of: &Ty,
    path: u64,
    index: &S::Index,
) -> Result<List<Value>, Memory>
    requires given { AreGiven (S.scheme scheme.now) (rows_of answers.now) }
    requires path { AreAt (S.scheme scheme.now).elements (bag (type_tree of.now)) path }
    ensures { IfOk result (λ values.
        map nested values ≡ built (source (S.scheme scheme.now) (rows_of answers.now))
        (type_tree of.now) path index.now) }
{
    let rows = rows_at(answers, path);
    let mut values = List::new(alloc);
    for row in 0..rows.len() {
        let outer = scheme.outer(alloc, path, rows, row)?;
        if outer == *index {
            let at = whole(path, row)?;
            values.push(element(alloc, scheme, answers, of, at)?)?;
        }
    }
    Ok(values)
}

// The value of a part of an element, which stands at a place.
#[cycle(element)]
#[tactic(auto, using(nq_model::proofs::Terms::type_of_record, nq_model::proofs::Trees::nested_record, nq_model::proofs::Trees::nested_bag))]
fn element<S: IndexScheme>(
    alloc: Global,
    scheme: &S,
    answers: &[Answer],
    part: &Ty,
    at: Place,
) -> Result<Value, Memory>
    requires given { AreGiven (S.scheme scheme.now) (rows_of answers.now) }
    requires stands { Stands (S.scheme scheme.now) (rows_of answers.now) at (type_tree part.now) }
    ensures { IfOk result (λ value.
        nested value ≡ value_at (S.scheme scheme.now) (rows_of answers.now) at
        (type_tree part.now)) }
{
    match part {
        Ty::Int | Ty::Bool | Ty::Text => base(alloc, scheme, answers, at),
        Ty::Rec(fields) => {
            let values = field_values(alloc, scheme, answers, fields.as_slice(), at)?;
            Ok(Value::Rec(values))
        }
        Ty::Bag(of) => {
            let index = inner(alloc, scheme, answers, at)?;
            let elements = elements(alloc, scheme, answers, of, at.inner, &index)?;
            Ok(Value::Bag(elements))
        }
        Ty::Fun(_, _) => Ok(Value::Rec(List::new(alloc))),
    }
}

// The same for fields, of which the first stands at the place.
#[cycle(element)]
fn field_values<S: IndexScheme>(
    alloc: Global,
    scheme: &S,
    answers: &[Answer],
    fields: &[(Label, Ty)],
    at: Place,
) -> Result<List<(Label, Value)>, Memory>
    requires given { AreGiven (S.scheme scheme.now) (rows_of answers.now) }
    requires stands { Stands (S.scheme scheme.now) (rows_of answers.now) at
        (rec (field_types_of (fields_view fields.now))) }
    ensures { IfOk result (λ values.
        fields_of (values_view values)
        ≡ fields_at (S.scheme scheme.now) (rows_of answers.now) at
        (field_types_of (fields_view fields.now))) }
{
    let mut values = List::with_capacity(alloc, fields.len())?;
    let mut here = at;
    for field in fields {
        let label = field.0.copy(alloc)?;
        values.push((label, element(alloc, scheme, answers, &field.1, here)?))?;
        here = behind(here, &field.1)?;
    }
    Ok(values)
}

// The value of a base part.
fn base<S: IndexScheme>(
    alloc: Global,
    scheme: &S,
    answers: &[Answer],
    at: Place,
) -> Result<Value, Memory>
    requires given { AreGiven (S.scheme scheme.now) (rows_of answers.now) }
    requires leaf { IsLeaf (S.scheme scheme.now) at.path at.leaf }
    requires row { at.row < length (get_or (rows_of answers.now) at.path []) }
    ensures { IfOk result (λ value.
        nested value ≡ base (get_or (row_of (rows_of answers.now) at)
        ((S.scheme scheme.now).base at.path at.leaf - 1) no_cell)) }
{
    let column = scheme.base(at.path, at.leaf) - 1;
    let rows = rows_at(answers, at.path);
    value_of(alloc, &rows.cell(at.row, column as usize))
}

// The index of an inner bag.
fn inner<S: IndexScheme>(
    alloc: Global,
    scheme: &S,
    answers: &[Answer],
    at: Place,
) -> Result<S::Index, Memory>
    requires given { AreGiven (S.scheme scheme.now) (rows_of answers.now) }
    requires slot { IsSlot (S.scheme scheme.now) at.path at.slot }
    requires row { at.row < length (get_or (rows_of answers.now) at.path []) }
    ensures { IfOk result (λ index.
        index ≡ (S.scheme scheme.now).inner at.path at.slot (row_of (rows_of answers.now) at)) }
{
    let rows = rows_at(answers, at.path);
    scheme.inner(alloc, at.path, at.slot, rows, at.row)
}

// The rows of the answer at a path.
#[tactic(auto, using(stitcher::proofs::Ready::rows_at))]
fn rows_at(answers: &[Answer], path: u64) -> &Rows
    requires { path < length answers.now }
    ensures { result.now ≡ get_or (rows_of answers.now) path [] }
{
    &answers[path as usize].rows
}

// The value of a cell.
fn value_of(alloc: Global, cell: &CellRef<'_>) -> Result<Value, Memory>
    ensures { IfOk result (λ value. nested value ≡ base (cell_seen cell.now)) }
{
    match cell {
        CellRef::Int(number) => Ok(Value::Int(*number)),
        CellRef::Bool(truth) => Ok(Value::Bool(*truth)),
        CellRef::Text(text) => Ok(Value::Text(Text::from_str(alloc, text)?)),
    }
}
