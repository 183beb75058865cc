// The unfinished forms, and how deep the program is in which they stand.
ghost use Rattle.std.specs.Prelude.{◌≡◌, length, IfOk, ◌∷◌, []};
ghost use Rattle.nq_parser.specs.Forms.{form_view, held, held_types, needs, needs_types};
ghost use Rattle.nq_parser.specs.Stacks.{frames, marks, needed, Popped, TakenBag, TakenParen, TopIs};

use crate::form::{FieldHead, Form};
use crate::part::deeper;
use nq_model::{List, Memory};
use std::alloc::Global;

/// A form, and what it needs together with those around it.
#[derive(Drop)]
pub struct Level {
    pub form: Form,
    pub needs: u64,
    pub types: u64,
}

/// The unfinished forms, the innermost last.
#[derive(Drop)]
pub struct Stack {
    pub levels: List<Level>,
    ghost kept: { marks levels ≡ needed (frames levels) },
}

/// How deep the deepest expression is that the form holds.
pub fn held(form: &Form) -> u64
    ensures { result ≡ held (form_view form.now) }
{
    match form {
        Form::ForBody { source, .. } => source.depth,
        Form::Guarded { test, .. } => test.depth,
        Form::Then { test, .. } => test.depth,
        Form::Else { test, yes, .. } => test.depth.max(yes.depth),
        Form::LetBody { value, .. } => value.depth,
        Form::Right { left, .. } => left.depth,
        Form::Argument { func, .. } => func.depth,
        Form::Field {
            head: FieldHead::Next { fields, .. },
            ..
        } => fields.depth,
        Form::Field {
            head: FieldHead::First { .. },
            ..
        } => 0,
        Form::Paren { .. }
        | Form::Bag { .. }
        | Form::Aggregate { .. }
        | Form::Source { .. }
        | Form::Test { .. }
        | Form::If { .. }
        | Form::FunBody { .. }
        | Form::LetValue { .. }
        | Form::Prefix { .. } => 0,
    }
}

/// How deep the deepest type is that the form holds.
pub fn held_types(form: &Form) -> u64
    ensures { result ≡ held_types (form_view form.now) }
{
    match form {
        Form::ForBody { source, .. } => source.types,
        Form::Guarded { test, .. } => test.types,
        Form::Then { test, .. } => test.types,
        Form::Else { test, yes, .. } => test.types.max(yes.types),
        Form::FunBody { taken, .. } => taken.depth,
        Form::LetBody { value, .. } => value.types,
        Form::Right { left, .. } => left.types,
        Form::Argument { func, .. } => func.types,
        Form::Field {
            head: FieldHead::Next { fields, .. },
            ..
        } => fields.types,
        Form::Field {
            head: FieldHead::First { .. },
            ..
        } => 0,
        Form::Paren { .. }
        | Form::Bag { .. }
        | Form::Aggregate { .. }
        | Form::Source { .. }
        | Form::Test { .. }
        | Form::If { .. }
        | Form::LetValue { .. }
        | Form::Prefix { .. } => 0,
    }
}

impl Stack {
    /// No forms.
    pub fn new(alloc: Global) -> Stack
        ensures { frames result.levels ≡ [] }
    {
        Stack {
            levels: List::new(alloc),
        }
    }

    /// How many forms there are.
    pub fn height(&self) -> usize
        ensures { result ≡ length (frames self.now.levels) }
    {
        self.levels.len()
    }

    /// How deep the program is at least, whatever it goes on with.
    pub fn needs(&self) -> u64
        ensures { result ≡ needs (frames self.now.levels) }
    {
        match self.levels.as_slice().last() {
            Some(level) => level.needs,
            None => 0,
        }
    }

    /// How deep the deepest type is that the forms hold.
    pub fn types(&self) -> u64
        ensures { result ≡ needs_types (frames self.now.levels) }
    {
        match self.levels.as_slice().last() {
            Some(level) => level.types,
            None => 0,
        }
    }

    /// The innermost form.
    pub fn top(&self) -> Option<&Form>
        ensures { TopIs result (frames self.now.levels) }
    {
        match self.levels.as_slice().last() {
            Some(level) => Some(&level.form),
            None => None,
        }
    }

    // How deep the program is at least with this form inside the others.
    fn needs_with(&self, form: &Form) -> Result<u64, Memory>
        ensures { IfOk result (λ deep. deep ≡ needs (form_view form.now ∷ frames self.now.levels)) }
    {
        match held(form).checked_add(self.height() as u64) {
            Some(deep) => Ok(self.needs().max(deeper(deep)?)),
            None => Err(Memory),
        }
    }

    /// With one more form, inside the others.
    pub fn push(&mut self, form: Form) -> Result<(), Memory>
        ensures { IfOk result (λ u.
            frames self.new.levels ≡ form_view form ∷ frames self.old.levels) }
    {
        match self.needs_with(&form) {
            Ok(needs) => {
                let types = self.types().max(held_types(&form));
                self.levels.push(Level { form, needs, types })
            }
            Err(fault) => {
                drop(form);
                Err(fault)
            }
        }
    }

    /// The innermost form, taken off.
    pub fn pop(&mut self) -> Option<Form>
        ensures { Popped result (frames self.old.levels) (frames self.new.levels) }
    {
        match self.levels.pop() {
            Some(level) => Some(level.form),
            None => None,
        }
    }

    /// Takes the innermost form off where it is a parenthesis, and says where that begins.
    pub fn take_paren(&mut self) -> Option<u64>
        ensures { TakenParen result (frames self.old.levels) (frames self.new.levels) }
    {
        match self.top() {
            Some(Form::Paren { opening }) => {
                let opening = *opening;
                drop(self.pop());
                Some(opening)
            }
            _ => None,
        }
    }

    /// Takes the innermost form off where it is a bag, and says where that begins.
    pub fn take_bag(&mut self) -> Option<u64>
        ensures { TakenBag result (frames self.old.levels) (frames self.new.levels) }
    {
        match self.top() {
            Some(Form::Bag { opening }) => {
                let opening = *opening;
                drop(self.pop());
                Some(opening)
            }
            _ => None,
        }
    }
}
