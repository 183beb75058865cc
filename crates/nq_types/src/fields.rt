// The fields of record types.
ghost use Rattle.std.specs.Prelude.{◌≡◌, option_map};
ghost use Rattle.nq_model.specs.Types.{type_tree, field_types_of, fields_view};
ghost use Rattle.nq_model.specs.Typing.{type_at};

use nq_model::{Label, Ty};

// The type of the first field that has the label.
pub(crate) fn field_type<'a>(fields: &'a [(Label, Ty)], label: &str) -> Option<&'a Ty>
    ensures { option_map (λ ty. type_tree ty.now) result
        ≡ type_at label.now (field_types_of (fields_view fields.now)) }
{
    for field in fields {
        if label == field.0.as_str() {
            return Some(&field.1);
        }
    }
    None
}
