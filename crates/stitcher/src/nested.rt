// Stitching: one nested value from flat answers.
ghost use Rattle.std.specs.Prelude.{◌≡◌, IfOk, OnOk, map};
ghost use Rattle.nq_model.specs.Types.{TypeTree, type_tree, field_types_of, fields_view, bag, rec};
ghost use Rattle.nq_model.specs.Values.{nested, fields_of, fields_view as values_view, Same};
ghost use Rattle.nq_model.specs.declared.table.Schema.{Schema};
ghost use Rattle.nq_ir.specs.Building.{built};
ghost use Rattle.nq_ir.specs.Meanings.{Tables, form_meaning};
ghost use Rattle.nq_ir.specs.Trees.{FormTree};
ghost use Rattle.nq_ir.specs.WellFormed.{IsWellFormed};
ghost use Rattle.stitcher.specs.Schemes.{Reads, answers as source, stitched};
ghost use Rattle.stitcher.specs.Stitching.{rows_of, AreAnswersOf, IsReady};
ghost use Rattle.stitcher.specs.Walks.{AreAt, Stands, past, value_at, fields_at};

use crate::scheme::IndexScheme;
use crate::source::Source;
use crate::walk::Walk;
use nq_model::{Label, List, Memory, Ty, Value};
use sql_profile::Answer;
use std::alloc::Global;

/// The nested value that answers stand for, one for each path of a bag type: the elements at a path
/// are the rows under an index, in row order; a base part is a cell of the row, and an inner bag
/// has the elements at its own path under the index that the row gives for it. The value has the
/// elements at the first path under the index of the top. Rows under an index that no row gives are
/// left out. Where the scheme reads the answers for a normal form and tables, the value is what the
/// form means over them. Fails only if memory runs out.
///
/// After Cheney, Lindley and Wadler, "Query Shredding", SIGMOD 2014.
pub fn stitch<S: IndexScheme>(
    alloc: Global,
    scheme: &S,
    of: &Ty,
    answers: &List<Answer>,
) -> Result<Value, Memory>
    requires bag { (element : TypeTree) × (type_tree of.now ≡ bag element) }
    requires answers { AreAnswersOf (S.scheme scheme.now) (type_tree of.now) (rows_of answers.now) }
    ensures value { IfOk result (λ value. (element : TypeTree) → type_tree of.now ≡ bag element
        → nested value ≡ stitched (S.scheme scheme.now) element (rows_of answers.now)) }
    ensures meaning { IfOk result (λ value. (schema : Schema) (form : FormTree) (ts : Tables)
        → type_tree of.now ≡ bag form.element → IsWellFormed schema.tables form
        → Reads (S.scheme scheme.now) (rows_of answers.now) form ts
        → Same (nested value) (form_meaning ts form)) }
{
    let from = Source::new(alloc, scheme, of, answers.as_slice())?;
    match of {
        Ty::Bag(element) => {
            let top = scheme.top();
            let elements = elements(alloc, &from, element, 0, &top)?;
            Ok(Value::Bag(elements))
        }
        Ty::Int | Ty::Bool | Ty::Text | Ty::Rec(_) | Ty::Fun(_, _) => {
            Ok(Value::Bag(List::new(alloc)))
        }
    }
}

// The elements at a path under an index.
#[cycle(element)]
fn elements<S: IndexScheme>(
    alloc: Global,
    from: &Source<'_, S>,
    of: &Ty,
    path: u64,
    index: &S::Index,
) -> Result<List<Value>, Memory>
    requires ready { IsReady S.Index.eq (S.scheme from.now.scheme.now)
        (rows_of from.now.answers.now) from.now.groups from.now.spans }
    requires path { AreAt (S.scheme from.now.scheme.now).elements (bag (type_tree of.now)) path }
    ensures { IfOk result (λ values.
        map nested values ≡ built
        (source (S.scheme from.now.scheme.now) (rows_of from.now.answers.now)) (type_tree of.now)
        path index.now) }
{
    let groups = from.groups(path);
    let mut values = List::new(alloc);
    let mut place = groups.first(index);
    while place > 0 {
        let mut walk = Walk::new(path, groups.row(place))?;
        values.push(element(alloc, from, of, &mut walk)?)?;
        place = groups.next(place);
    }
    Ok(values)
}

// The value of a part of an element, where a walk stands, which is then past it.
#[cycle(element)]
#[tactic(auto, using(nq_model::proofs::Terms::type_of_record, nq_model::proofs::Trees::nested_record, nq_model::proofs::Trees::nested_bag))]
fn element<S: IndexScheme>(
    alloc: Global,
    from: &Source<'_, S>,
    part: &Ty,
    walk: &mut Walk,
) -> Result<Value, Memory>
    requires ready { IsReady S.Index.eq (S.scheme from.now.scheme.now)
        (rows_of from.now.answers.now) from.now.groups from.now.spans }
    requires stands { Stands (S.scheme from.now.scheme.now) (rows_of from.now.answers.now) walk.old
        (type_tree part.now) }
    ensures value { IfOk result
        (λ value. nested value
        ≡ value_at (S.scheme from.now.scheme.now) (rows_of from.now.answers.now) walk.old
        (type_tree part.now)) }
    ensures past { OnOk result (walk.new ≡ past walk.old (type_tree part.now)) }
{
    match part {
        Ty::Int | Ty::Bool | Ty::Text => from.base(alloc, walk),
        Ty::Rec(fields) => {
            let values = field_values(alloc, from, fields.as_slice(), walk)?;
            Ok(Value::Rec(values))
        }
        Ty::Bag(of) => {
            let path = walk.inner;
            let index = from.inner(alloc, walk)?;
            let elements = elements(alloc, from, of, path, &index)?;
            Ok(Value::Bag(elements))
        }
        Ty::Fun(_, _) => Ok(Value::Rec(List::new(alloc))),
    }
}

// The same for fields.
#[cycle(element)]
fn field_values<S: IndexScheme>(
    alloc: Global,
    from: &Source<'_, S>,
    fields: &[(Label, Ty)],
    walk: &mut Walk,
) -> Result<List<(Label, Value)>, Memory>
    requires ready { IsReady S.Index.eq (S.scheme from.now.scheme.now)
        (rows_of from.now.answers.now) from.now.groups from.now.spans }
    requires stands { Stands (S.scheme from.now.scheme.now) (rows_of from.now.answers.now) walk.old
        (rec (field_types_of (fields_view fields.now))) }
    ensures values { IfOk result
        (λ values. fields_of (values_view values)
        ≡ fields_at (S.scheme from.now.scheme.now) (rows_of from.now.answers.now) walk.old
        (field_types_of (fields_view fields.now))) }
    ensures past { OnOk result (walk.new
        ≡ past walk.old (rec (field_types_of (fields_view fields.now)))) }
{
    let mut values = List::with_capacity(alloc, fields.len())?;
    for field in fields {
        let label = field.0.copy(alloc)?;
        values.push((label, element(alloc, from, &field.1, walk)?))?;
    }
    Ok(values)
}
