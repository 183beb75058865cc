// Whole forms of their parts.
ghost use Rattle.std.specs.Prelude.{◌≡◌, IfOk};
ghost use Rattle.nq_parser.specs.Forms.{fields_view, form_view, head_view, part_view, type_fields_view, type_head_view};
ghost use Rattle.nq_parser.specs.Machine.{joined, put_field, put_type};
ghost use Rattle.query_syntax.specs.Trees.{type_view};

use crate::form::{FieldHead, Form, TypeHead};
use crate::part::{Fields, Part, TypeFields, TypePart, deeper};
use crate::stack::{held, held_types};
use nq_model::{Label, List, Memory, boxed};
use query_syntax::{FieldName, Syntax};
use std::alloc::Global;

/// The whole form that a form with its last part is.
pub fn joined(alloc: Global, form: Form, last: Part) -> Result<Part, Memory>
    ensures { IfOk result (λ whole. part_view whole ≡ joined (form_view form) (part_view last)) }
{
    let types = held_types(&form).max(last.types);
    let depth = match deeper(held(&form).max(last.depth)) {
        Ok(depth) => depth,
        Err(fault) => {
            drop(form);
            return Err(fault);
        }
    };
    let form = form;
    match form {
        Form::ForBody {
            place,
            opening,
            variable,
            from,
            source,
            closing,
        } => {
            let syntax = Syntax::For {
                place,
                opening,
                variable,
                from,
                source: source.syntax,
                closing,
                body: last.syntax,
            };
            Part::new(alloc, syntax, depth, types)
        }
        Form::Guarded {
            place,
            opening,
            test,
            closing,
        } => {
            let syntax = Syntax::Where {
                place,
                opening,
                test: test.syntax,
                closing,
                body: last.syntax,
            };
            Part::new(alloc, syntax, depth, types)
        }
        Form::Else {
            place,
            test,
            then_place,
            yes,
            else_place,
        } => {
            let syntax = Syntax::If {
                place,
                test: test.syntax,
                then_place,
                yes: yes.syntax,
                else_place,
                no: last.syntax,
            };
            Part::new(alloc, syntax, depth, types)
        }
        Form::FunBody {
            place,
            opening,
            variable,
            colon,
            taken,
            closing,
            arrow,
        } => {
            let syntax = Syntax::Fun {
                place,
                opening,
                variable,
                colon,
                taken: taken.ty,
                closing,
                arrow,
                body: last.syntax,
            };
            Part::new(alloc, syntax, depth, types)
        }
        Form::LetBody {
            place,
            variable,
            assign,
            value,
            semicolon,
        } => {
            let syntax = Syntax::Let {
                place,
                variable,
                assign,
                value: value.syntax,
                semicolon,
                body: last.syntax,
            };
            Part::new(alloc, syntax, depth, types)
        }
        Form::Prefix { place, op } => {
            let syntax = Syntax::Prefix {
                place,
                op,
                of: last.syntax,
            };
            Part::new(alloc, syntax, depth, types)
        }
        Form::Right { left, place, op } => {
            let syntax = Syntax::Infix {
                left: left.syntax,
                place,
                op,
                right: last.syntax,
            };
            Part::new(alloc, syntax, depth, types)
        }
        Form::Paren { .. }
        | Form::Bag { .. }
        | Form::Aggregate { .. }
        | Form::Source { .. }
        | Form::Test { .. }
        | Form::If { .. }
        | Form::Then { .. }
        | Form::LetValue { .. }
        | Form::Argument { .. }
        | Form::Field { .. } => Ok(last),
    }
}

/// The fields with one more, whose expression is the last part.
#[tactic(auto, using(crate::proofs::Joining::one_put))]
pub fn put_field(
    alloc: Global,
    head: FieldHead,
    place: u64,
    label: Label,
    mark: u64,
    last: Part,
) -> Result<Fields, Memory>
    ensures { IfOk result (λ fs.
        fields_view fs ≡ put_field (head_view head) place label mark (part_view last)) }
{
    match head {
        FieldHead::First { opening } => {
            let first_name = FieldName {
                before: opening,
                place,
                label,
                mark,
            };
            Ok(Fields {
                first_name,
                first: last.syntax,
                others: List::new(alloc),
                depth: last.depth,
                types: last.types,
            })
        }
        FieldHead::Next {
            fields: before,
            comma,
        } => {
            let depth = before.depth.max(last.depth);
            let types = before.types.max(last.types);
            let syntax = Box::into_inner(last.syntax);
            let mut others = before.others;
            let name = FieldName {
                before: comma,
                place,
                label,
                mark,
            };
            others.push((name, syntax))?;
            Ok(Fields {
                first_name: before.first_name,
                first: before.first,
                others,
                depth,
                types,
            })
        }
    }
}

/// The fields of a record type with one more, whose type is the last part.
#[tactic(auto, using(crate::proofs::Joining::one_type_put))]
pub fn put_type(
    alloc: Global,
    head: TypeHead,
    place: u64,
    label: Label,
    mark: u64,
    last: TypePart,
) -> Result<TypeFields, Memory>
    ensures { IfOk result (λ fs.
        type_fields_view fs ≡ put_type (type_head_view head) place label mark (type_view last.ty)) }
{
    let TypePart { ty, depth } = last;
    match head {
        TypeHead::First { opening } => {
            let first_name = FieldName {
                before: opening,
                place,
                label,
                mark,
            };
            let first = boxed(alloc, ty)?;
            Ok(TypeFields {
                first_name,
                first,
                others: List::new(alloc),
                depth,
            })
        }
        TypeHead::Next {
            fields: before,
            comma,
        } => {
            let depth = before.depth.max(depth);
            let mut others = before.others;
            let name = FieldName {
                before: comma,
                place,
                label,
                mark,
            };
            others.push((name, ty))?;
            Ok(TypeFields {
                first_name: before.first_name,
                first: before.first,
                others,
                depth,
            })
        }
    }
}
