// The parts of the type along which a form is numbered.
ghost use Rattle.std.specs.Prelude.{◌≡◌};
ghost use Rattle.nq_model.specs.Types.{type_tree, field_types_of, fields_view};
ghost use Rattle.nq_ir.specs.NormalForms.{element_type, field_types};

use nq_model::{Label, Ty};

/// The element type of a bag; a type that is none is itself, which no typed body asks for.
pub(crate) fn element_of(ty: &Ty) -> &Ty
    ensures { type_tree result.now ≡ element_type (type_tree ty.now) }
{
    match ty {
        Ty::Bag(element) => element,
        Ty::Int | Ty::Bool | Ty::Text | Ty::Rec(_) | Ty::Fun(_, _) => ty,
    }
}

/// The fields of a record type; a type that is none has none.
pub(crate) fn fields_in(ty: &Ty) -> &[(Label, Ty)]
    ensures { field_types_of (fields_view result.now) ≡ field_types (type_tree ty.now) }
{
    match ty {
        Ty::Rec(fields) => fields.as_slice(),
        Ty::Int | Ty::Bool | Ty::Text | Ty::Bag(_) | Ty::Fun(_, _) => &[],
    }
}
