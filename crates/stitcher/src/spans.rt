// How many paths begin with each path of a type.
ghost use Rattle.std.specs.Prelude.{◌≡◌, ◌+◌, ◌++◌, IfOk, OnOk};
ghost use Rattle.nq_model.specs.Types.{type_tree, field_types_of, fields_view};
ghost use Rattle.nq_ir.specs.Parts.{bags, bags_in, element_types, element_types_in};
ghost use Rattle.stitcher.specs.Stitching.{spans_of};

use nq_model::{Label, List, Memory, Ty};

/// Puts the spans of a type's paths at the end: of each, how many paths begin with it.
#[cycle(spans)]
pub(crate) fn push_spans(of: &Ty, spans: &mut List<u64>) -> Result<(), Memory>
    ensures { OnOk result (spans.new ≡ spans.old ++ spans_of (element_types (type_tree of.now))) }
{
    match of {
        Ty::Int | Ty::Bool | Ty::Text | Ty::Fun(_, _) => Ok(()),
        Ty::Rec(fields) => push_field_spans(fields.as_slice(), spans),
        Ty::Bag(element) => {
            spans.push(bags(of)?)?;
            push_spans(element, spans)
        }
    }
}

#[cycle(spans)]
fn push_field_spans(fields: &[(Label, Ty)], spans: &mut List<u64>) -> Result<(), Memory>
    ensures { OnOk result (spans.new
        ≡ spans.old ++ spans_of (element_types_in (field_types_of (fields_view fields.now)))) }
{
    for field in fields {
        push_spans(&field.1, spans)?;
    }
    Ok(())
}

// How many bags a type has.
#[cycle(bags)]
#[tactic(auto, using(nq_model::proofs::Terms::type_of_record))]
fn bags(of: &Ty) -> Result<u64, Memory>
    ensures { IfOk result (λ count. count ≡ bags (type_tree of.now)) }
{
    match of {
        Ty::Int | Ty::Bool | Ty::Text | Ty::Fun(_, _) => Ok(0),
        Ty::Rec(fields) => field_bags(fields.as_slice()),
        Ty::Bag(element) => bags(element)?.checked_add(1).ok_or(Memory),
    }
}

#[cycle(bags)]
#[tactic(auto, using(nq_model::proofs::Terms::type_of_record))]
fn field_bags(fields: &[(Label, Ty)]) -> Result<u64, Memory>
    ensures { IfOk result (λ count. count ≡ bags_in (field_types_of (fields_view fields.now))) }
{
    let mut count: u64 = 0;
    for field in fields {
        count = count.checked_add(bags(&field.1)?).ok_or(Memory)?;
    }
    Ok(count)
}
