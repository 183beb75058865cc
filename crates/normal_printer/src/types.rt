// Types of elements.
ghost use Rattle.std.specs.Prelude.{◌≡◌, ◌++◌, OnOk, string_bytes};
ghost use Rattle.nq_ir.specs.Printed.{type_text};
ghost use Rattle.nq_model.specs.Types.{field_types_of, fields_view, rec, type_tree};

use crate::pieces::put_lead;
use nq_model::{Label, Memory, Ty};

// The type, its fields as they stand. No function stands in the type of an element.
#[cycle(put_type)]
#[tactic(auto, using(nq_model::proofs::Terms::type_of_record))]
pub(crate) fn put_type(text: &mut String, ty: &Ty) -> Result<(), Memory>
    ensures { OnOk result (string_bytes text.new
        ≡ string_bytes text.old ++ type_text (type_tree ty.now)) }
{
    match ty {
        Ty::Int => Ok(text.push_str("int")?),
        Ty::Bool => Ok(text.push_str("bool")?),
        Ty::Text => Ok(text.push_str("text")?),
        Ty::Rec(fields) => put_field_types(text, fields.as_slice()),
        Ty::Bag(element) => {
            text.push_str("[")?;
            put_type(text, element)?;
            text.push_str("]")?;
            Ok(())
        }
        Ty::Fun(_, _) => Ok(()),
    }
}

#[cycle(put_type)]
fn put_field_types(text: &mut String, fields: &[(Label, Ty)]) -> Result<(), Memory>
    ensures { OnOk result (string_bytes text.new
        ≡ string_bytes text.old ++ type_text (rec (field_types_of (fields_view fields.now)))) }
{
    text.push_str("(")?;
    for (place, (label, ty)) in fields.iter().enumerate() {
        put_lead(text, place, "", ", ")?;
        text.push_str(label.as_str())?;
        text.push_str(": ")?;
        put_type(text, ty)?;
    }
    text.push_str(")")?;
    Ok(())
}
