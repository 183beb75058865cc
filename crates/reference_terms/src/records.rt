// Records: fields in the byte order of their labels.
ghost use Rattle.std.specs.Prelude.{◌≡◌, ◌≤◌, List, length, insert, IfOk};
ghost use Rattle.nq_model.specs.Meaning.{field_in, put_field, value_under};
ghost use Rattle.nq_model.specs.Values.{Nested, nested, fields_view, fields_of};

use nq_model::{Label, List, Memory, Value};
use std::alloc::Global;
use std::cmp::Ordering;

// Where a field belongs among fields that are in order: before the first whose label is not below
// its own.
fn place_of(fields: &[(Label, Value)], label: &str) -> usize
    ensures within { result ≤ length fields.now }
    ensures put { (v : Nested)
        → insert (fields_view fields.now) result (label.now, v)
        ≡ put_field label.now v (fields_view fields.now) }
{
    for (at, other) in fields.iter().enumerate() {
        if label.cmp(other.0.as_str()) != Ordering::Greater {
            return at;
        }
    }
    fields.len()
}

/// Puts a field into a record, in the byte order of the labels. Fails only if memory runs out.
pub fn put_field(
    fields: List<(Label, Value)>,
    label: Label,
    value: Value,
) -> Result<List<(Label, Value)>, Memory>
    ensures { IfOk result (λ more.
        fields_view more ≡ put_field label (nested value) (fields_view fields)) }
{
    let at = place_of(fields.as_slice(), label.as_str());
    let mut all = fields.into_vec();
    all.insert(at, (label, value))?;
    Ok(List::from_vec(all))
}

// A copy of the value under a label; one that is not there counts as false.
fn value_under(alloc: Global, fields: &[(Label, Value)], label: &str) -> Result<Value, Memory>
    ensures { IfOk result (λ value.
        nested value ≡ value_under label.now (fields_of (fields_view fields.now))) }
{
    for field in fields {
        if field.0.as_str() == label {
            return field.1.copy(alloc);
        }
    }
    Ok(Value::Bool(false))
}

/// A copy of a record's field. A field that is not there counts as false, as does one of another
/// value. Fails only if memory runs out.
#[tactic(auto, using(nq_model::proofs::Trees::nested_record))]
pub fn field_in(alloc: Global, of: &Value, label: &str) -> Result<Value, Memory>
    ensures { IfOk result (λ value. nested value ≡ field_in label.now (nested of.now)) }
{
    match of {
        Value::Rec(fields) => value_under(alloc, fields.as_slice(), label),
        Value::Int(_) => Ok(Value::Bool(false)),
        Value::Bool(_) => Ok(Value::Bool(false)),
        Value::Text(_) => Ok(Value::Bool(false)),
        Value::Bag(_) => Ok(Value::Bool(false)),
    }
}
