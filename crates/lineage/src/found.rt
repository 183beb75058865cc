// Fields of values, found by their labels.
ghost use Rattle.std.specs.Prelude.{◌≡◌, MatchOption, false, map};
ghost use Rattle.nq_model.specs.Meaning.{cell_of, elements_in, field_in, value_under};
ghost use Rattle.nq_model.specs.Values.{nested, base, fields_of, fields_view};
ghost use Rattle.nq_model.specs.declared.table.Cell.TheVariants as cell;
ghost use Rattle.traced_meaning.specs.TracedValues.{text_of};
ghost use Rattle.lineage.specs.Decoding.{number_under};

use nq_model::{Label, Value};

// The value of the first field with the label, if the value is a record that has one.
#[tactic(auto, using(nq_model::proofs::Trees::nested_record, nq_model::proofs::Trees::nested_bag))]
fn field_in<'a>(label: &str, value: &'a Value) -> Option<&'a Value>
    ensures { MatchOption result
        (field_in label.now (nested value.now) ≡ base (cell.Bool false))
        (λ found. nested found.now ≡ field_in label.now (nested value.now)) }
{
    match value {
        Value::Rec(fields) => field_among(label, fields.as_slice()),
        Value::Int(_) | Value::Bool(_) | Value::Text(_) | Value::Bag(_) => None,
    }
}

fn field_among<'a>(label: &str, fields: &'a [(Label, Value)]) -> Option<&'a Value>
    ensures { MatchOption result
        (value_under label.now (fields_of (fields_view fields.now)) ≡ base (cell.Bool false))
        (λ found. nested found.now ≡ value_under label.now (fields_of (fields_view fields.now))) }
{
    for field in fields {
        if field.0.as_str() == label {
            return Some(&field.1);
        }
    }
    None
}

/// The elements of a bag; what is no bag has none.
#[tactic(auto, using(crate::proofs::Views::read_forms))]
pub(crate) fn elements_in(value: &Value) -> &[Value]
    ensures { map nested result.now ≡ elements_in (nested value.now) }
{
    match value {
        Value::Bag(elements) => elements.as_slice(),
        Value::Int(_) | Value::Bool(_) | Value::Text(_) | Value::Rec(_) => &[],
    }
}

/// The number in a field, or 0.
pub(crate) fn number_under(label: &str, value: &Value) -> i64
    ensures { result ≡ number_under label.now (nested value.now) }
{
    match field_in(label, value) {
        Some(Value::Int(number)) => *number,
        _ => 0,
    }
}

/// The text in a field, or the empty one.
pub(crate) fn text_under<'a>(label: &str, value: &'a Value) -> &'a str
    ensures { result.now ≡ text_of (cell_of (field_in label.now (nested value.now))) }
{
    match field_in(label, value) {
        Some(Value::Text(text)) => text.as_str(),
        _ => "",
    }
}
