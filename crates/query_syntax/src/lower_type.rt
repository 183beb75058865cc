// Types as they are written become types.
ghost use Rattle.std.specs.Prelude.{◌≡◌, Ok};
ghost use Rattle.nq_model.specs.QueryGrammar.{TypeSyntax as Written};
ghost use Rattle.nq_model.specs.Types.{type_tree, fields_view};
ghost use Rattle.query_syntax.specs.Lowering.{Gives, type_lowered, type_fields_lowered};
ghost use Rattle.query_syntax.specs.Trees.{type_view, type_fields, typed};

use crate::fault::SyntaxFault;
use crate::lower_labels;
use crate::syntax::{FieldName, TypeSyntax};
use nq_model::{Label, List, Ty, boxed, in_label_order};
use std::alloc::Global;

/// The type that is written, in which the fields of a record stand in the byte order of their
/// labels. `TwiceLabel` at the first label that stands earlier in the same record type; `Memory`
/// where there is too little memory.
#[cycle(lower_type)]
#[tactic(auto, using(nq_model::proofs::Terms::type_of_record))]
pub fn lower_type(alloc: Global, syntax: TypeSyntax) -> Result<Ty, SyntaxFault>
    ensures { Gives type_tree result (type_lowered (type_view syntax)) }
{
    match syntax {
        TypeSyntax::Base { base, .. } => Ok(Ty::of_base(base)),
        TypeSyntax::Bag { element, .. } => {
            let element = lower_type_box(alloc, element)?;
            Ok(Ty::Bag(element))
        }
        TypeSyntax::Paren { inner, .. } => lower_type(alloc, Box::into_inner(inner)),
        TypeSyntax::NoFields { .. } => Ok(Ty::Rec(List::new(alloc))),
        TypeSyntax::Rec {
            first_name,
            first,
            others,
            ..
        } => {
            let first = lower_type(alloc, Box::into_inner(first))?;
            let fields = lower_type_fields(alloc, others, first_name, first)?;
            let fields = in_label_order(fields)?;
            Ok(Ty::Rec(fields))
        }
        TypeSyntax::Fun { taken, given, .. } => {
            let taken = lower_type_box(alloc, taken)?;
            let given = lower_type_box(alloc, given)?;
            Ok(Ty::Fun(taken, given))
        }
    }
}

#[cycle(lower_type)]
fn lower_type_box(alloc: Global, syntax: Box<TypeSyntax>) -> Result<Box<Ty>, SyntaxFault>
    ensures { Gives (λ ty. type_tree ty.value) result (type_lowered (type_view syntax.value)) }
{
    let ty = lower_type(alloc, Box::into_inner(syntax))?;
    let boxed = boxed(alloc, ty)?;
    Ok(boxed)
}

// The fields of a record type in the order of the text, whatever was written as the type of the
// first.
#[cycle(lower_type)]
fn lower_type_fields(
    alloc: Global,
    others: List<(FieldName, TypeSyntax)>,
    first_name: FieldName,
    first: Ty,
) -> Result<List<(Label, Ty)>, SyntaxFault>
    ensures { (ty : Written) → type_lowered ty ≡ Ok (type_tree first)
        → Gives fields_view result
        (type_fields_lowered (type_fields first_name ty (typed others))) }
{
    let mut labels = lower_labels::only(alloc, first_name.label.as_str())?;
    let mut lowered = List::new(alloc);
    lowered.push((first_name.label, first))?;
    for (name, syntax) in others.into_vec() {
        lower_labels::put(alloc, &mut labels, &name)?;
        let ty = lower_type(alloc, syntax)?;
        lowered.push((name.label, ty))?;
    }
    Ok(lowered)
}
