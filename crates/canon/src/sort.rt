// The canonical form.
ghost use Rattle.std.specs.Prelude.{◌≡◌, IfOk, map};
ghost use Rattle.nq_model.specs.Orders.{sorted_by};
ghost use Rattle.nq_model.specs.Values.{nested, fields_view};
ghost use Rattle.nq_model.specs.Canonical.{canonical, value_cmp};

use crate::order::compare;
use nq_model::{Label, List, Memory, Value};
use std::alloc::Global;

/// The canonical form of the value: each bag in canonical order, at every depth. The value's parts
/// are moved and not copied. Fails only if memory runs out, and the value is gone then too.
#[cycle(sort)]
pub fn sort_deep(alloc: Global, value: Value) -> Result<Value, Memory>
    ensures { IfOk result (λ sorted. nested sorted ≡ canonical (nested value)) }
{
    match value {
        Value::Rec(fields) => Ok(Value::Rec(sort_fields(alloc, fields)?)),
        Value::Bag(elements) => Ok(Value::Bag(sort_elements(alloc, elements)?)),
        base => Ok(base),
    }
}

#[cycle(sort)]
fn sort_fields(alloc: Global, fields: List<(Label, Value)>) -> Result<List<(Label, Value)>, Memory>
    ensures { IfOk result (λ sorted. fields_view sorted ≡ map
        (λ f. (f.0, canonical f.1)) (fields_view fields)) }
{
    let mut sorted = List::with_capacity(alloc, fields.len())?;
    for (label, value) in fields.into_vec() {
        sorted.push((label, sort_deep(alloc, value)?))?;
    }
    Ok(sorted)
}

#[cycle(sort)]
fn sort_elements(alloc: Global, elements: List<Value>) -> Result<List<Value>, Memory>
    ensures { IfOk result (λ sorted.
        map nested sorted ≡ sorted_by value_cmp (map canonical (map nested elements))) }
{
    let mut sorted = Vec::with_capacity(alloc, elements.len())?;
    for element in elements.into_vec() {
        sorted.push(sort_deep(alloc, element)?)?;
    }
    put_in_order(&mut sorted);
    Ok(List::from_vec(sorted))
}

// Elements that tie are one, so the sort need not be stable.
fn put_in_order(elements: &mut Vec<Value>)
    ensures { map nested elements.new.items ≡ sorted_by value_cmp (map nested elements.old.items) }
{
    elements.sort_unstable_by(compare);
}
