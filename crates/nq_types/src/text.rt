// Types as text.
ghost use Rattle.std.specs.Prelude.{◌≡◌, ◌++◌, IfOk, OnOk, string_bytes};
ghost use Rattle.nq_model.specs.Types.{type_tree, rec, bag, field_types_of, fields_view};
ghost use Rattle.nq_model.specs.TypeTexts.{written_type, is_function, in_parentheses};
ghost use Rattle.nq_model.specs.Separators.{separator};

use nq_model::{Label, List, Memory, Ty};
use std::alloc::Global;

/// The type as text: `int`, `bool`, `text`, bags as `[T]`, records as `(a: T, b: U)`, functions as
/// `T -> U`. Fails only if memory runs out.
pub fn write_type(alloc: Global, ty: &Ty) -> Result<List<u8>, Memory>
    ensures { IfOk result (λ text. text ≡ written_type (type_tree ty.now)) }
{
    let mut text = String::new(alloc);
    put_type(&mut text, ty)?;
    Ok(List::from_vec(text.into_bytes()))
}

#[cycle(put)]
#[tactic(auto, using(nq_model::proofs::Terms::type_of_record))]
fn put_type(text: &mut String, ty: &Ty) -> Result<(), Memory>
    ensures { OnOk result (string_bytes text.new
        ≡ string_bytes text.old ++ written_type (type_tree ty.now)) }
{
    match ty {
        Ty::Int => Ok(text.push_str("int")?),
        Ty::Bool => Ok(text.push_str("bool")?),
        Ty::Text => Ok(text.push_str("text")?),
        Ty::Rec(fields) => put_record(text, fields.as_slice()),
        Ty::Bag(element) => put_bag(text, element),
        Ty::Fun(taken, given) => {
            put_taken(text, taken)?;
            text.push_str(" -> ")?;
            put_type(text, given)
        }
    }
}

#[cycle(put)]
fn put_bag(text: &mut String, element: &Ty) -> Result<(), Memory>
    ensures { OnOk result (string_bytes text.new
        ≡ string_bytes text.old ++ written_type (bag (type_tree element.now))) }
{
    text.push_str("[")?;
    put_type(text, element)?;
    text.push_str("]")?;
    Ok(())
}

// What a function takes, in parentheses where it is a function.
#[cycle(put)]
fn put_taken(text: &mut String, taken: &Ty) -> Result<(), Memory>
    ensures { OnOk result (string_bytes text.new
        ≡ string_bytes text.old
        ++ in_parentheses (is_function (type_tree taken.now))
        (written_type (type_tree taken.now))) }
{
    if is_function(taken) {
        text.push_str("(")?;
        put_type(text, taken)?;
        text.push_str(")")?;
        Ok(())
    } else {
        put_type(text, taken)
    }
}

fn is_function(ty: &Ty) -> bool
    ensures { result ≡ is_function (type_tree ty.now) }
{
    match ty {
        Ty::Fun(_, _) => true,
        Ty::Int | Ty::Bool | Ty::Text | Ty::Rec(_) | Ty::Bag(_) => false,
    }
}

#[cycle(put)]
fn put_record(text: &mut String, fields: &[(Label, Ty)]) -> Result<(), Memory>
    ensures { OnOk result (string_bytes text.new
        ≡ string_bytes text.old ++ written_type (rec (field_types_of (fields_view fields.now)))) }
{
    text.push_str("(")?;
    for (i, (label, ty)) in fields.iter().enumerate() {
        put_separator(text, i)?;
        text.push_str(label.as_str())?;
        text.push_str(": ")?;
        put_type(text, ty)?;
    }
    text.push_str(")")?;
    Ok(())
}

// What stands before the field at a place.
fn put_separator(text: &mut String, place: usize) -> Result<(), Memory>
    ensures { OnOk result (string_bytes text.new ≡ string_bytes text.old ++ separator place) }
{
    if place > 0 {
        text.push_str(", ")?;
    }
    Ok(())
}
