// The fields of an element of a traced form.
ghost use Rattle.std.specs.Prelude.{◌≡◌, IfOk};
ghost use Rattle.nq_model.specs.Orders.{by_label};
ghost use Rattle.lineage.specs.TraceForms.{row_label};

use nq_model::{Label, List, Memory};
use std::alloc::Global;

/// The label of an element's tag.
pub(crate) const TAG: &str = "at";

/// The label of the element itself.
pub(crate) const WHOLE: &str = "value";

/// The label of the number of the k-th row, from 1.
pub(crate) fn row_label(alloc: Global, number: usize) -> Result<Label, Memory>
    ensures { IfOk result (λ label. label ≡ row_label number) }
{
    let text = format!(in alloc; "r{number}")?;
    Label::from_str(alloc, text.as_str())
}

/// The fields in the byte order of their labels; of equal labels the earlier field first.
pub(crate) fn in_label_order<T: Drop>(fields: Vec<(Label, T)>) -> Result<List<(Label, T)>, Memory>
    ensures { IfOk result (λ sorted. sorted ≡ by_label fields.items) }
{
    let mut sorted = fields;
    sorted.sort_by(|left, right| left.0.as_str().cmp(right.0.as_str()))?;
    Ok(List::from_vec(sorted))
}
