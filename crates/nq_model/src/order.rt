// The byte order of labels.
ghost use Rattle.std.specs.Prelude.{◌≡◌, ◌<◌, ◌≤◌, All, IfOk, length, map, insert};
ghost use Rattle.nq_model.specs.Orders.{by_label, label_at, place_cmp, label_order, put_by};
ghost use Rattle.nq_model.specs.Types.{fields_view};

use crate::list::List;
use crate::memory::Memory;
use crate::text::Label;
use crate::ty::Ty;
use std::alloc::Global;
use std::cmp::Ordering;

// The label at a place, or the empty one past the end.
fn label_at<T>(fields: &[(Label, T)], place: usize) -> &str
    ensures { result.now ≡ label_at (map (λ field. field.0) fields.now) place }
{
    match fields.get(place) {
        Some(field) => field.0.as_str(),
        None => "",
    }
}

// Where a place belongs among places that are in order: before the first that is not below it.
fn position_of<T>(fields: &[(Label, T)], places: &[usize], place: usize) -> usize
    ensures within { result ≤ length places.now }
    ensures put { insert places.now result place
        ≡ put_by (place_cmp (map (λ field. field.0) fields.now)) place places.now }
{
    let label = label_at(fields, place);
    for (at, other) in places.iter().enumerate() {
        if label.cmp(label_at(fields, *other)) != Ordering::Greater {
            return at;
        }
    }
    places.len()
}

/// The places of fields, counted from 0, in the byte order of their labels. The work is that of an
/// insertion sort, since a table has at most 64 columns.
pub fn label_order<T>(alloc: Global, fields: &[(Label, T)]) -> Result<List<usize>, Memory>
    ensures order { IfOk result (λ order. order ≡ label_order (map (λ field. field.0) fields.now)) }
    ensures within { IfOk result (λ order. All (λ place. place < length fields.now) order) }
{
    let mut order = Vec::with_capacity(alloc, fields.len())?;
    let mut place = fields.len();
    while place > 0 {
        place -= 1;
        let at = position_of(fields, order.as_slice(), place);
        order.insert(at, place)?;
    }
    Ok(List::from_vec(order))
}

/// The fields in the byte order of their labels; of equal labels the earlier field first. Fails
/// only if memory runs out.
pub fn in_label_order(fields: List<(Label, Ty)>) -> Result<List<(Label, Ty)>, Memory>
    ensures { IfOk result (λ sorted. fields_view sorted ≡ by_label (fields_view fields)) }
{
    let mut sorted = fields.into_vec();
    sorted.sort_by(|left, right| left.0.as_str().cmp(right.0.as_str()))?;
    Ok(List::from_vec(sorted))
}
