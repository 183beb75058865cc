// Whether what was read begins a program of a depth.
ghost use Rattle.std.specs.Prelude.{◌≡◌, IfOk, List, ◌∷◌};
ghost use Rattle.nq_parser.specs.Forms.{around_view, form_view, type_form_view};
ghost use Rattle.nq_parser.specs.Machine.{fits, Frame, TypeFrame};
ghost use Rattle.nq_parser.specs.Needs.{around_depth, hole, hole_types, over_types, want_depth, want_type_depth, want_types};
ghost use Rattle.nq_parser.specs.Stacks.{frames};
ghost use Rattle.nq_parser.specs.States.{position_view, state_view};
ghost use Rattle.nq_parser.specs.TypeStacks.{type_frames};

use crate::form::{Around, Form, TypeForm};
use crate::part::deeper;
use crate::stack::Stack;
use crate::state::{Position, State, TypeState};
use crate::type_stack::TypeStack;
use nq_model::Memory;

/// How deep an expression is at least that was begun, and the deepest type in it.
#[derive(Clone, Copy)]
pub struct Hole {
    pub depth: u64,
    pub types: u64,
}

/// Whether a program of at most this depth, with types of at most this depth, begins with what was
/// read.
#[tactic(auto, using(crate::proofs::Needs::fits_is))]
pub fn fits(state: &State, limit: u64) -> Result<bool, Memory>
    ensures { IfOk result (λ fit. fit ≡ fits limit (state_view state.now)) }
{
    let hole = hole_at(&state.at, &state.stack)?;
    if let Position::Ready { .. } = &state.at {
        return Ok(hole.depth <= limit && hole.types <= limit);
    }
    let deep = match hole.depth.checked_add(state.stack.height() as u64) {
        Some(deep) => deep.max(state.stack.needs()),
        None => return Err(Memory),
    };
    let types = hole.types.max(state.stack.types());
    Ok(deep <= limit && types <= limit)
}

// What was begun inside the unfinished forms.
fn hole_at(at: &Position, stack: &Stack) -> Result<Hole, Memory>
    ensures depth { IfOk result
        (λ h. h.depth ≡ hole (position_view at.now (frames stack.now.levels))) }
    ensures types { IfOk result
        (λ h. h.types ≡ hole_types (position_view at.now (frames stack.now.levels))) }
{
    match at {
        Position::Want => Ok(want(stack)),
        Position::AtTable { .. } => Ok(Hole { depth: 1, types: 0 }),
        Position::AtWord { .. }
        | Position::AtAggregate { .. }
        | Position::AtFor { .. }
        | Position::AtForOpen { .. }
        | Position::AtForName { .. }
        | Position::AtWhere { .. }
        | Position::AtLet { .. }
        | Position::AtLetName { .. } => Ok(Hole { depth: 2, types: 0 }),
        Position::AtFun { .. } | Position::AtFunOpen { .. } | Position::AtFunName { .. } => Ok(
            Hole { depth: 2, types: 1 },
        ),
        Position::AtFunClose { taken, .. } => Ok(Hole {
            depth: 2,
            types: taken.depth,
        }),
        Position::AtComma { fields, .. } | Position::AtLabel { fields, .. } => {
            let depth = deeper(fields.depth)?;
            Ok(Hole {
                depth,
                types: fields.types,
            })
        }
        Position::AtDot { of, .. } => {
            let depth = deeper(of.depth)?;
            Ok(Hole {
                depth,
                types: of.types,
            })
        }
        Position::WantType { ty } => type_hole(ty, want_type(&ty.forms)),
        Position::AtTypeWord { ty, .. } => type_hole(ty, 2),
        Position::AtTypeComma { fields, ty, .. } | Position::AtTypeLabel { fields, ty, .. } => {
            let depth = deeper(fields.depth)?;
            type_hole(ty, depth)
        }
        Position::HaveType { part, ty } => type_hole(ty, part.depth),
        Position::Have { part } | Position::Ready { part, .. } => Ok(Hole {
            depth: part.depth,
            types: part.types,
        }),
    }
}

// An expression has to begin: behind `(` and `[` nothing deeper than they are.
fn want(stack: &Stack) -> Hole
    ensures depth { result.depth ≡ want_depth (frames stack.now.levels) }
    ensures types { result.types ≡ want_types (frames stack.now.levels) }
{
    match stack.top() {
        Some(form) => want_in(form),
        None => Hole { depth: 1, types: 0 },
    }
}

fn want_in(form: &Form) -> Hole
    ensures depth { (k : List Frame) → result.depth ≡ want_depth (form_view form.now ∷ k) }
    ensures types { (k : List Frame) → result.types ≡ want_types (form_view form.now ∷ k) }
{
    match form {
        Form::Paren { .. } => Hole { depth: 0, types: 0 },
        Form::Bag { .. } => Hole { depth: 0, types: 1 },
        Form::Aggregate { .. }
        | Form::Source { .. }
        | Form::ForBody { .. }
        | Form::Test { .. }
        | Form::Guarded { .. }
        | Form::If { .. }
        | Form::Then { .. }
        | Form::Else { .. }
        | Form::FunBody { .. }
        | Form::LetValue { .. }
        | Form::LetBody { .. }
        | Form::Prefix { .. }
        | Form::Right { .. }
        | Form::Argument { .. }
        | Form::Field { .. } => Hole { depth: 1, types: 0 },
    }
}

// A type has to begin: behind `(` nothing deeper than it is.
fn want_type(forms: &TypeStack) -> u64
    ensures { result ≡ want_type_depth (type_frames forms.now.levels) }
{
    match forms.top() {
        Some(form) => want_type_in(form),
        None => 1,
    }
}

fn want_type_in(form: &TypeForm) -> u64
    ensures { (j : List TypeFrame) → result ≡ want_type_depth (type_form_view form.now ∷ j) }
{
    match form {
        TypeForm::Paren { .. } => 0,
        TypeForm::Bag { .. } | TypeForm::Right { .. } | TypeForm::Field { .. } => 1,
    }
}

// A type of this depth was begun.
fn type_hole(ty: &TypeState, inner: u64) -> Result<Hole, Memory>
    ensures depth { IfOk result (λ h. h.depth ≡ around_depth (around_view ty.now.around)) }
    ensures types { IfOk result
        (λ h. h.types ≡ over_types (type_frames ty.now.forms.levels) inner) }
{
    let depth = match ty.around {
        Around::Nil { .. } => 1,
        Around::Fun { .. } => 2,
    };
    match inner.checked_add(ty.forms.height() as u64) {
        Some(deep) => Ok(Hole {
            depth,
            types: ty.forms.needs().max(deep),
        }),
        None => Err(Memory),
    }
}
