// What stands before the values of fields in the texts of records.
ghost use Rattle.std.specs.Prelude.{◌≡◌, ◌++◌, List, ℕ, IfOk, OnOk, codes, string_bytes};
ghost use Rattle.nq_model.specs.Separators.{separator};

use nq_model::{Label, Memory};
use std::alloc::Global;
use std::marker::Model;

/// A field's label, laid out once for all rows: as it is written first in a record, and as it is
/// written behind another field.
#[derive(Drop)]
pub(crate) struct Heading {
    label: Label,
    first: String,
    next: String,
}

impl Model for Heading {
    ghost use Rattle.std.specs.Prelude.{◌≡◌, ◌++◌, List, ℕ, codes, string_bytes};

    ghost Value = { List ℕ };

    ghost view = { λ heading. heading.label };

    ghost invariant = { λ heading.
        (string_bytes heading.first ≡ heading.label ++ codes " = ")
        × (string_bytes heading.next ≡ codes ", " ++ (heading.label ++ codes " = ")) };
}

impl Heading {
    /// The heading of a field with this label.
    pub(crate) fn new(alloc: Global, label: &Label) -> Result<Heading, Memory>
        ensures { IfOk result (λ made. made ≡ label.now) }
    {
        let label = label.copy(alloc)?;
        let mut first = String::new(alloc);
        first.push_str(label.as_str())?;
        first.push_str(" = ")?;
        let mut next = String::new(alloc);
        next.push_str(", ")?;
        next.push_str(first.as_str())?;
        Ok(Heading { label, first, next })
    }

    /// How many bytes it is written with behind another field.
    pub(crate) fn len(&self) -> usize {
        self.next.len()
    }

    /// Puts it before the value of the field at a place of its record, from 0.
    #[inline(always)]
    pub(crate) fn write(&self, text: &mut String, place: usize) -> Result<(), Memory>
        ensures { OnOk result (string_bytes text.new
            ≡ string_bytes text.old ++ (separator place ++ (self.now ++ codes " = "))) }
    {
        let laid = if place == 0 { &self.first } else { &self.next };
        text.push_str(laid.as_str())?;
        Ok(())
    }
}
