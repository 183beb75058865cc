// Positions behind a form that was begun.
ghost use Rattle.std.specs.Prelude.{◌∷◌, List, Some};
ghost use Rattle.nq_parser.specs.Forms.{around_view, form_view, type_form_view};
ghost use Rattle.nq_parser.specs.Machine.{Frame, Want, WantType};
ghost use Rattle.nq_parser.specs.Stacks.{frames};
ghost use Rattle.nq_parser.specs.States.{Leads};
ghost use Rattle.nq_parser.specs.TypeStacks.{type_frames};

use crate::form::{Form, TypeForm};
use crate::stack::Stack;
use crate::state::{Position, TypeState};
use nq_model::Memory;

/// An expression has to begin, inside one form more.
pub fn wants(stack: &mut Stack, form: Form) -> Result<Option<Position>, Memory>
    ensures { Leads result (frames stack.new.levels)
        (Some (Want (form_view form ∷ frames stack.old.levels))) }
{
    stack.push(form)?;
    Ok(Some(Position::Want))
}

/// A type has to begin, inside one form more.
pub fn wants_type(ty: TypeState, form: TypeForm) -> Result<Option<Position>, Memory>
    ensures { (k : List Frame)
        → Leads result k (Some
        (WantType (type_form_view form ∷ type_frames ty.forms.levels) (around_view ty.around) k)) }
{
    let mut ty = ty;
    ty.forms.push(form)?;
    Ok(Some(Position::WantType { ty }))
}
