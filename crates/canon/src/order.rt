// The canonical order.
ghost use Rattle.std.specs.Prelude.{◌≡◌, map};
ghost use Rattle.std.specs.Cmp.Lexicographic.{slice_cmp};
ghost use Rattle.nq_model.specs.Orders.{label_cmp};
ghost use Rattle.nq_model.specs.Values.{nested, rec_of, bag_of, fields_of, labels, fields_view};
ghost use Rattle.nq_model.specs.Canonical.{value_cmp, fields_cmp};
ghost use Rattle.canon.specs.Trees.{kind_place};

use nq_model::{Label, Value};
use std::cmp::Ordering;

/// Which of two values stands before the other in canonical order: truth values with false first,
/// then integers by value, texts by bytes, records, and bags. Records are compared by their lists
/// of labels and then by the first field that differs, bags by the first element that differs; a
/// list stands before a longer one that it begins.
///
/// Bags are compared as they stand. So the order is one of nested multisets where the values are
/// sorted at every depth.
#[cycle(compare)]
#[tactic(auto, using(nq_model::proofs::Trees::nested_record, nq_model::proofs::Trees::nested_bag))]
pub fn compare(left: &Value, right: &Value) -> Ordering
    ensures { result ≡ value_cmp (nested left.now) (nested right.now) }
{
    match (left, right) {
        (Value::Bool(left), Value::Bool(right)) => left.cmp(right),
        (Value::Int(left), Value::Int(right)) => left.cmp(right),
        (Value::Text(left), Value::Text(right)) => left.as_str().cmp(right.as_str()),
        (Value::Rec(left), Value::Rec(right)) => compare_records(left.as_slice(), right.as_slice()),
        (Value::Bag(left), Value::Bag(right)) => compare_bags(left.as_slice(), right.as_slice()),
        _ => kind_place(left).cmp(&kind_place(right)),
    }
}

#[cycle(compare)]
fn compare_bags(elements: &[Value], others: &[Value]) -> Ordering
    ensures { result ≡ value_cmp (bag_of (map nested elements.now))
        (bag_of (map nested others.now)) }
{
    for i in 0..elements.len().min(others.len()) {
        let first = compare(&elements[i], &others[i]);
        if first != Ordering::Equal {
            return first;
        }
    }
    elements.len().cmp(&others.len())
}

#[cycle(compare)]
fn compare_records(left: &[(Label, Value)], right: &[(Label, Value)]) -> Ordering
    ensures { result ≡ value_cmp (rec_of (fields_view left.now)) (rec_of (fields_view right.now)) }
{
    match compare_labels(left, right) {
        Ordering::Equal => compare_fields(left, right),
        other => other,
    }
}

#[cycle(compare)]
fn compare_fields(left: &[(Label, Value)], right: &[(Label, Value)]) -> Ordering
    ensures { result ≡ fields_cmp (fields_of (fields_view left.now))
        (fields_of (fields_view right.now)) }
{
    for i in 0..left.len().min(right.len()) {
        let first = compare(&left[i].1, &right[i].1);
        if first != Ordering::Equal {
            return first;
        }
    }
    left.len().cmp(&right.len())
}

fn compare_labels(left: &[(Label, Value)], right: &[(Label, Value)]) -> Ordering
    ensures { result ≡ slice_cmp label_cmp (labels (fields_of (fields_view left.now)))
        (labels (fields_of (fields_view right.now))) }
{
    for i in 0..left.len().min(right.len()) {
        let first = left[i].0.as_str().cmp(right[i].0.as_str());
        if first != Ordering::Equal {
            return first;
        }
    }
    left.len().cmp(&right.len())
}

// The place of a value's kind in the canonical order.
fn kind_place(value: &Value) -> u8
    ensures { result ≡ kind_place (nested value.now) }
{
    match value {
        Value::Bool(_) => 0,
        Value::Int(_) => 1,
        Value::Text(_) => 2,
        Value::Rec(_) => 3,
        Value::Bag(_) => 4,
    }
}
