// Function types that end before a token.
ghost use Rattle.std.specs.Prelude.{◌≡◌, IfOk};
ghost use Rattle.nq_model.specs.QueryGrammar.{TFun};
ghost use Rattle.query_syntax.specs.Trees.{type_view};
ghost use Rattle.nq_parser.specs.TypeSettling.{end_view, SameBehind};
ghost use Rattle.nq_parser.specs.TypeStacks.{type_frames};

use crate::form::{TypeForm, TypeHead};
use crate::part::{TypePart, deeper};
use crate::type_stack::TypeStack;
use nq_model::{Label, Memory, boxed};
use query_syntax::TypeSyntax;
use std::alloc::Global;

/// What stands around function types that have ended: a form that a token ends, or none.
#[derive(Drop)]
pub enum TypeEnd {
    Bag {
        opening: u64,
    },
    Paren {
        opening: u64,
    },
    Field {
        head: TypeHead,
        place: u64,
        label: Label,
        mark: u64,
    },
    Whole,
}

/// Joins the function types that end with the type, and takes off the form around them.
pub fn settle_type(
    alloc: Global,
    forms: &mut TypeStack,
    first: TypePart,
) -> Result<(TypePart, TypeEnd), Memory>
    ensures { IfOk result (λ r.
        SameBehind (type_frames forms.old.levels) (type_view first.ty)
        (end_view r.1 (type_frames forms.new.levels)) (type_view r.0.ty)) }
{
    let mut part = first;
    'joining: loop {
        match forms.pop() {
            Some(TypeForm::Right { taken, arrow }) => part = function(alloc, taken, arrow, part)?,
            Some(TypeForm::Bag { opening }) => return Ok((part, TypeEnd::Bag { opening })),
            Some(TypeForm::Paren { opening }) => return Ok((part, TypeEnd::Paren { opening })),
            Some(
                TypeForm::Field {
                    head,
                    place,
                    label,
                    mark,
                },
            ) => {
                let end = TypeEnd::Field {
                    head,
                    place,
                    label,
                    mark,
                };
                return Ok((part, end));
            }
            None => return Ok((part, TypeEnd::Whole)),
        }
    }
}

fn function(alloc: Global, taken: TypePart, arrow: u64, given: TypePart) -> Result<TypePart, Memory>
    ensures { IfOk result (λ whole.
        type_view whole.ty ≡ TFun (type_view taken.ty) arrow (type_view given.ty)) }
{
    let depth = deeper(taken.depth.max(given.depth))?;
    let taken = boxed(alloc, taken.ty)?;
    let given = boxed(alloc, given.ty)?;
    let ty = TypeSyntax::Fun {
        taken,
        arrow,
        given,
    };
    Ok(TypePart { ty, depth })
}
