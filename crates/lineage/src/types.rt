// Types of traced forms.
ghost use Rattle.std.specs.Prelude.{◌≡◌, ◌++◌, [], IfOk, OnOk, map};
ghost use Rattle.nq_model.specs.Types.{type_tree, fields_view};
ghost use Rattle.lineage.specs.TraceForms.{ints, row_fields, with_numbers, type_traced};
ghost use Rattle.lineage.specs.Places.{lent, under};

use crate::fields::{TAG, WHOLE, in_label_order, row_label};
use crate::places::{inside, under, width};
use nq_ir::Body;
use nq_model::{Label, List, Memory, Ty, boxed};
use std::alloc::Global;

/// The type of elements with so many numbers.
#[tactic(auto, using(nq_model::proofs::Terms::type_of_record))]
pub(crate) fn with_numbers(alloc: Global, count: usize, value: Ty) -> Result<Ty, Memory>
    ensures { IfOk result (λ made. type_tree made ≡ with_numbers count (type_tree value)) }
{
    let mut fields = Vec::new(alloc);
    fields.push((Label::from_str(alloc, TAG)?, Ty::Int))?;
    push_ints(alloc, count, &mut fields)?;
    fields.push((Label::from_str(alloc, WHOLE)?, value))?;
    Ok(Ty::Rec(in_label_order(fields)?))
}

// Puts the types of so many numbers at the end.
fn push_ints(alloc: Global, count: usize, fields: &mut Vec<(Label, Ty)>) -> Result<(), Memory>
    ensures { OnOk result (fields_view fields.new.items
        ≡ fields_view fields.old.items ++ row_fields 1 (ints count) []) }
{
    for place in 0..count {
        fields.push((row_label(alloc, place + 1)?, Ty::Int))?;
    }
    Ok(())
}

/// The type in which each bag's elements have a tag and numbers, where these bodies stand at its
/// place.
#[cycle(types)]
#[tactic(auto, using(nq_model::proofs::Terms::type_of_record, crate::proofs::Views::types_listed))]
pub(crate) fn type_traced(alloc: Global, of: &Ty, here: &[&Body]) -> Result<Ty, Memory>
    ensures { IfOk result
        (λ made. type_tree made ≡ type_traced (lent here.now) (type_tree of.now)) }
{
    match of {
        Ty::Int => Ok(Ty::Int),
        Ty::Bool => Ok(Ty::Bool),
        Ty::Text => Ok(Ty::Text),
        Ty::Rec(fields) => Ok(Ty::Rec(types_traced(alloc, fields.as_slice(), here)?)),
        Ty::Bag(element) => {
            let inner = inside(alloc, here)?;
            let value = type_traced(alloc, element, inner.as_slice())?;
            let element = with_numbers(alloc, width(here), value)?;
            Ok(Ty::Bag(boxed(alloc, element)?))
        }
        Ty::Fun(taken, given) => Ok(Ty::Fun(
            boxed(alloc, taken.copy(alloc)?)?,
            boxed(alloc, given.copy(alloc)?)?,
        )),
    }
}

#[cycle(types)]
fn types_traced(
    alloc: Global,
    fields: &[(Label, Ty)],
    here: &[&Body],
) -> Result<List<(Label, Ty)>, Memory>
    ensures { IfOk result (λ made. fields_view made ≡ map
        (λ f. (f.0, type_traced (under f.0 (lent here.now)) f.1)) (fields_view fields.now)) }
{
    let mut made = List::with_capacity(alloc, fields.len())?;
    for field in fields {
        let inner = under(alloc, field.0.as_str(), here)?;
        let of = type_traced(alloc, &field.1, inner.as_slice())?;
        made.push((field.0.copy(alloc)?, of))?;
    }
    Ok(made)
}
