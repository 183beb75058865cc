// The canonical text.
ghost use Rattle.std.specs.Prelude.{◌≡◌, ◌++◌, IfOk, OnOk, map, codes, string_bytes};
ghost use Rattle.nq_model.specs.Values.{nested, rec_of, bag_of, fields_view};
ghost use Rattle.nq_model.specs.Canonical.{canonical_text, written};
ghost use Rattle.canon.specs.Sorted.{IsSortedDeep};

use crate::pieces::{write_quoted, write_separator};
use itoa::Buffer;
use nq_model::{Label, List, Memory, Value};
use std::alloc::Global;

/// The text of the value as it stands, and a newline: records as `(a = V, b = W)`, bags as `{V,
/// W}`, texts between single quotes, with each single quote doubled. Of a value that is sorted at
/// every depth this is the canonical text. Fails only if memory runs out.
pub fn write(alloc: Global, value: &Value) -> Result<List<u8>, Memory>
    ensures text { IfOk result (λ text. text ≡ written (nested value.now) ++ codes "\n") }
    ensures canonical { IfOk result
        (λ text. IsSortedDeep (nested value.now) → text ≡ canonical_text (nested value.now)) }
{
    let mut text = String::new(alloc);
    write_value(&mut text, value)?;
    text.push_str("\n")?;
    Ok(List::from_vec(text.into_bytes()))
}

#[cycle(write)]
fn write_value(text: &mut String, value: &Value) -> Result<(), Memory>
    ensures { OnOk result (string_bytes text.new
        ≡ string_bytes text.old ++ written (nested value.now)) }
{
    match value {
        Value::Int(number) => Ok(text.push_str(Buffer::new().format(*number))?),
        Value::Bool(truth) => Ok(write!(text, "{truth}")?),
        Value::Text(quoted) => write_quoted(text, quoted.as_str()),
        Value::Rec(fields) => write_record(text, fields.as_slice()),
        Value::Bag(elements) => write_bag(text, elements.as_slice()),
    }
}

#[cycle(write)]
fn write_record(text: &mut String, fields: &[(Label, Value)]) -> Result<(), Memory>
    ensures { OnOk result (string_bytes text.new
        ≡ string_bytes text.old ++ written (rec_of (fields_view fields.now))) }
{
    text.push_str("(")?;
    for (i, (label, value)) in fields.iter().enumerate() {
        write_separator(text, i)?;
        text.push_str(label.as_str())?;
        text.push_str(" = ")?;
        write_value(text, value)?;
    }
    text.push_str(")")?;
    Ok(())
}

#[cycle(write)]
fn write_bag(text: &mut String, elements: &[Value]) -> Result<(), Memory>
    ensures { OnOk result (string_bytes text.new
        ≡ string_bytes text.old ++ written (bag_of (map nested elements.now))) }
{
    text.push_str("{")?;
    for (i, element) in elements.iter().enumerate() {
        write_separator(text, i)?;
        write_value(text, element)?;
    }
    text.push_str("}")?;
    Ok(())
}
