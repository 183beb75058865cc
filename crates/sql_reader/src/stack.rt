// The unfinished forms, and how deep the text is in which they stand.
ghost use Rattle.std.specs.Prelude.{◌≡◌, IfOk, ◌∷◌, []};
ghost use Rattle.sql_reader.specs.Needs.{begun_depth, height, held, needs, ranged_depth, size};
ghost use Rattle.sql_reader.specs.Stacks.{form_view, forms, marks, needed, Popped, TopIs};
ghost use Rattle.sql_reader.specs.Views.{begun_view, ranged_view};

use crate::extent::one_more;
use crate::form::Form;
use crate::lists::{Begun, Ranged};
use nq_model::{List, Memory};
use std::alloc::Global;

/// A form, what it needs together with those around it, and how many levels they are.
#[derive(Drop)]
pub struct Level {
    pub form: Form,
    pub needs: u64,
    pub height: u64,
}

/// The unfinished forms, the innermost last.
#[derive(Drop)]
pub struct Stack {
    pub levels: List<Level>,
    ghost kept: { marks levels ≡ needed (forms levels) },
}

/// How deep the query is with the SELECT that was begun, when nothing comes any more.
pub fn begun_depth(begun: &Begun) -> Result<u64, Memory>
    ensures { IfOk result (λ deep. deep ≡ begun_depth (begun_view begun.now)) }
{
    let depth = one_more(begun.extent.depth)?;
    Ok(begun.before.extent.depth.max(depth))
}

/// The same of a SELECT or a scalar query.
pub fn ranged_depth(ranged: &Ranged) -> Result<u64, Memory>
    ensures { IfOk result (λ deep. deep ≡ ranged_depth (ranged_view ranged.now)) }
{
    match ranged {
        Ranged::Select(begun) => begun_depth(begun),
        Ranged::Scalar(scalar) => one_more(scalar.extent.depth),
    }
}

// How deep the form is at least for what it holds.
fn held(form: &Form) -> Result<u64, Memory>
    ensures { IfOk result (λ deep. deep ≡ held (form_view form.now)) }
{
    match form {
        Form::Then { test, .. } => one_more(test.extent.depth),
        Form::Else { test, yes, .. } => one_more(test.extent.depth.max(yes.extent.depth)),
        Form::Right { left, .. } => one_more(left.extent.depth),
        Form::Item { begun } => begun_depth(begun),
        Form::OrderKey { keys, begun } => {
            let depth = one_more(keys.extent.depth)?;
            Ok(begun_depth(begun)?.max(depth))
        }
        Form::Where { ranged, .. } => ranged_depth(ranged),
        Form::Paren { .. }
        | Form::Minus { .. }
        | Form::Not { .. }
        | Form::When { .. }
        | Form::NotExists { .. }
        | Form::Sum { .. } => Ok(0),
    }
}

// How many levels a form is: the query of NOT EXISTS is one of its own.
fn size(form: &Form) -> u64
    ensures { result ≡ size (form_view form.now) }
{
    match form {
        Form::NotExists { .. } => 2,
        _ => 1,
    }
}

impl Stack {
    /// No forms.
    pub fn new(alloc: Global) -> Stack
        ensures { forms result.levels ≡ [] }
    {
        Stack {
            levels: List::new(alloc),
        }
    }

    /// The levels round what the forms stand round, that of the outermost query included.
    pub fn height(&self) -> u64
        ensures { result ≡ height (forms self.now.levels) }
    {
        match self.levels.as_slice().last() {
            Some(level) => level.height,
            None => 1,
        }
    }

    /// How deep the text is at least, whatever it goes on with.
    pub fn needs(&self) -> u64
        ensures { result ≡ needs (forms self.now.levels) }
    {
        match self.levels.as_slice().last() {
            Some(level) => level.needs,
            None => 0,
        }
    }

    /// The innermost form.
    pub fn top(&self) -> Option<&Form>
        ensures { TopIs result (forms self.now.levels) }
    {
        match self.levels.as_slice().last() {
            Some(level) => Some(&level.form),
            None => None,
        }
    }

    // How deep the text is at least with one more form inside the others, and how many levels they
    // are then.
    fn with(&self, form: &Form) -> Result<(u64, u64), Memory>
        ensures { IfOk result (λ more.
            more ≡ (
              needs (form_view form.now ∷ forms self.now.levels),
              height
                  (form_view form.now ∷ forms self.now.levels),
            )) }
    {
        let around = self.height();
        let deep = held(form)?;
        match (deep.checked_add(around), size(form).checked_add(around)) {
            (Some(deep), Some(height)) => Ok((self.needs().max(deep), height)),
            _ => Err(Memory),
        }
    }

    /// With one more form, inside the others.
    pub fn push(&mut self, form: Form) -> Result<(), Memory>
        ensures { IfOk result (λ u.
            forms self.new.levels ≡ form_view form ∷ forms self.old.levels) }
    {
        let (needs, height) = self.with(&form)?;
        self.levels.push(Level {
            form,
            needs,
            height,
        })
    }

    /// The innermost form, taken off.
    pub fn pop(&mut self) -> Option<Form>
        ensures { Popped result (forms self.old.levels) (forms self.new.levels) }
    {
        match self.levels.pop() {
            Some(level) => Some(level.form),
            None => None,
        }
    }
}
