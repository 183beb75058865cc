// The canonical order of the values of parts.
ghost use Rattle.std.specs.Prelude.{◌≡◌};
ghost use Rattle.nq_model.specs.Canonical.{value_cmp, fields_cmp};
ghost use Rattle.rows.specs.Places.{row_at};
ghost use Rattle.answer_text.specs.Parts.{value_in, fields_in, bag_in, places_under};

use crate::groups::Groups;
use crate::heading::Heading;
use crate::part::Part;
use crate::read::{cell_at, index_at};
use crate::runs::is_index;
use rows::Rows;
use std::cmp::Ordering;

/// Which of the values of a part in two rows stands before the other in canonical order.
#[cycle(compare)]
#[tactic(auto, using(crate::proofs::PartValues::part_values))]
pub(crate) fn compare(part: &Part, rows: &Rows, left: usize, right: usize) -> Ordering
    ensures { result ≡ value_cmp (value_in part.now (row_at rows.now left))
        (value_in part.now (row_at rows.now right)) }
{
    match part {
        Part::Cell(column) => cell_at(rows, left, *column).cmp(&cell_at(rows, right, *column)),
        Part::Record(fields) => compare_fields(fields.as_slice(), rows, left, right),
        Part::Bag(column, groups, element) => {
            let index = index_at(rows, left, *column);
            let other = index_at(rows, right, *column);
            compare_under(groups, element, index, other)
        }
    }
}

// Which of the bags under two indexes stands before the other. Under one index stands one bag, of
// which no element is looked at.
#[cycle(compare)]
#[tactic(auto, using(crate::proofs::PartValues::one_bag))]
fn compare_under(groups: &Groups, element: &Part, index: (i64, i64), other: (i64, i64)) -> Ordering
    ensures { result
        ≡ value_cmp (bag_in element.now groups.now.rows (places_under groups.now index))
        (bag_in element.now groups.now.rows (places_under groups.now other)) }
{
    if is_index(index, other) {
        return Ordering::Equal;
    }
    let elements = groups.places_under(index);
    let others = groups.places_under(other);
    compare_bags(element, &groups.rows, elements, others)
}

// Which of the records of two rows stands before the other: they have the same labels.
#[cycle(compare)]
#[tactic(auto, using(crate::proofs::PartValues::part_values))]
fn compare_fields(fields: &[(Heading, Part)], rows: &Rows, left: usize, right: usize) -> Ordering
    ensures { result ≡ fields_cmp (fields_in fields.now (row_at rows.now left))
        (fields_in fields.now (row_at rows.now right)) }
{
    for field in fields {
        let first = compare(&field.1, rows, left, right);
        if first != Ordering::Equal {
            return first;
        }
    }
    Ordering::Equal
}

// Which of two bags stands before the other, of the elements of rows at places.
#[cycle(compare)]
#[tactic(auto, using(crate::proofs::PartValues::part_values))]
fn compare_bags(element: &Part, rows: &Rows, elements: &[u32], others: &[u32]) -> Ordering
    ensures { result ≡ value_cmp (bag_in element.now rows.now elements.now)
        (bag_in element.now rows.now others.now) }
{
    for i in 0..elements.len().min(others.len()) {
        let first = compare(element, rows, elements[i] as usize, others[i] as usize);
        if first != Ordering::Equal {
            return first;
        }
    }
    elements.len().cmp(&others.len())
}
