// The unfinished forms of a type, and how deep the type is in which they stand.
ghost use Rattle.std.specs.Prelude.{◌≡◌, length, IfOk, ◌∷◌, []};
ghost use Rattle.nq_parser.specs.Forms.{type_form_view, type_held, type_needs};
ghost use Rattle.nq_parser.specs.TypeStacks.{PoppedType, TakenTypeParen, TypeTopIs, type_frames, type_marks, type_needed};

use crate::form::{TypeForm, TypeHead};
use crate::part::deeper;
use nq_model::{List, Memory};
use std::alloc::Global;

/// A form, and what it needs together with those around it.
#[derive(Drop)]
pub struct TypeLevel {
    pub form: TypeForm,
    pub needs: u64,
}

/// The unfinished forms of a type, the innermost last.
#[derive(Drop)]
pub struct TypeStack {
    pub levels: List<TypeLevel>,
    ghost kept: { type_marks levels ≡ type_needed (type_frames levels) },
}

// How deep the deepest type is that the form holds.
fn held(form: &TypeForm) -> u64
    ensures { result ≡ type_held (type_form_view form.now) }
{
    match form {
        TypeForm::Right { taken, .. } => taken.depth,
        TypeForm::Field {
            head: TypeHead::Next { fields, .. },
            ..
        } => fields.depth,
        TypeForm::Field {
            head: TypeHead::First { .. },
            ..
        } => 0,
        TypeForm::Bag { .. } | TypeForm::Paren { .. } => 0,
    }
}

impl TypeStack {
    /// No forms.
    pub fn new(alloc: Global) -> TypeStack
        ensures { type_frames result.levels ≡ [] }
    {
        TypeStack {
            levels: List::new(alloc),
        }
    }

    /// How many forms there are.
    pub fn height(&self) -> usize
        ensures { result ≡ length (type_frames self.now.levels) }
    {
        self.levels.len()
    }

    /// How deep the type is at least, whatever it goes on with.
    pub fn needs(&self) -> u64
        ensures { result ≡ type_needs (type_frames self.now.levels) }
    {
        match self.levels.as_slice().last() {
            Some(level) => level.needs,
            None => 0,
        }
    }

    // How deep the type is at least with this form inside the others.
    fn needs_with(&self, form: &TypeForm) -> Result<u64, Memory>
        ensures { IfOk result (λ deep.
            deep ≡ type_needs (type_form_view form.now ∷ type_frames self.now.levels)) }
    {
        match held(form).checked_add(self.height() as u64) {
            Some(deep) => Ok(self.needs().max(deeper(deep)?)),
            None => Err(Memory),
        }
    }

    /// With one more form, inside the others.
    pub fn push(&mut self, form: TypeForm) -> Result<(), Memory>
        ensures { IfOk result (λ u.
            type_frames self.new.levels ≡ type_form_view form ∷ type_frames self.old.levels) }
    {
        match self.needs_with(&form) {
            Ok(needs) => self.levels.push(TypeLevel { form, needs }),
            Err(fault) => {
                drop(form);
                Err(fault)
            }
        }
    }

    /// The innermost form, taken off.
    pub fn pop(&mut self) -> Option<TypeForm>
        ensures { PoppedType result (type_frames self.old.levels) (type_frames self.new.levels) }
    {
        match self.levels.pop() {
            Some(level) => Some(level.form),
            None => None,
        }
    }

    /// The innermost form.
    pub fn top(&self) -> Option<&TypeForm>
        ensures { TypeTopIs result (type_frames self.now.levels) }
    {
        match self.levels.as_slice().last() {
            Some(level) => Some(&level.form),
            None => None,
        }
    }

    /// Takes the innermost form off where it is a parenthesis, and says where that begins.
    pub fn take_paren(&mut self) -> Option<u64>
        ensures { TakenTypeParen result (type_frames self.old.levels)
            (type_frames self.new.levels) }
    {
        match self.top() {
            Some(TypeForm::Paren { opening }) => {
                let opening = *opening;
                drop(self.pop());
                Some(opening)
            }
            _ => None,
        }
    }
}
