// The text of traced values.
ghost use Rattle.std.specs.Prelude.{◌≡◌, ◌++◌, IfOk, OnOk, map, string_bytes};
ghost use Rattle.nq_model.specs.Values.{
  nested,
  rec_of,
  bag_of,
  fields_of,
  elements_of,
  fields_view,
};
ghost use Rattle.traced_meaning.specs.TracedValues.{name_of};
ghost use Rattle.lineage.specs.TracedTexts.{
  name_text,
  names_text,
  rows_text,
  traced_written,
  fields_written,
  elements_written,
  element_written,
  rows_written,
  traced_text,
};
ghost use Rattle.lineage.specs.TracedTrees.{traced};

use crate::coded::{NUMBER, TABLE, coded};
use crate::found::{elements_in, number_under, text_under};
use crate::traced::Traced;
use canon::{sort_deep, write_cell, write_separator};
use itoa::Buffer;
use nq_model::{CellRef, Label, List, Memory, Value};
use std::alloc::Global;

/// The canonical text of a traced value, and a newline: that of a value, but each element is
/// followed by ` @ [`, the names of its rows as `TABLE NUMBER` with `, ` between them, and `]`. The
/// elements of a bag stand in canonical order, and those of one value in the order of their rows:
/// these are compared by table and then by number, a prefix before the longer. Two traced values
/// have one text where they are the same nested multiset, rows included. Fails only if memory runs
/// out.
pub fn write_traced(alloc: Global, of: Traced) -> Result<List<u8>, Memory>
    ensures { IfOk result (λ text. text ≡ traced_text (traced of)) }
{
    let value = sort_deep(alloc, coded(alloc, of)?)?;
    let mut text = String::new(alloc);
    write_value(&mut text, &value)?;
    text.push_str("\n")?;
    Ok(List::from_vec(text.into_bytes()))
}

#[cycle(write)]
#[tactic(auto, using(nq_model::proofs::Trees::nested_record, nq_model::proofs::Trees::nested_bag))]
fn write_value(text: &mut String, value: &Value) -> Result<(), Memory>
    ensures { OnOk result (string_bytes text.new
        ≡ string_bytes text.old ++ traced_written (nested value.now)) }
{
    match value {
        Value::Int(number) => write_cell(text, &CellRef::Int(*number)),
        Value::Bool(truth) => write_cell(text, &CellRef::Bool(*truth)),
        Value::Text(quoted) => write_cell(text, &CellRef::Text(quoted.as_str())),
        Value::Rec(fields) => write_record(text, fields.as_slice()),
        Value::Bag(elements) => write_bag(text, elements.as_slice()),
    }
}

#[cycle(write)]
fn write_record(text: &mut String, fields: &[(Label, Value)]) -> Result<(), Memory>
    ensures { OnOk result (string_bytes text.new
        ≡ string_bytes text.old ++ traced_written (rec_of (fields_view fields.now))) }
{
    text.push_str("(")?;
    write_fields(text, fields)?;
    text.push_str(")")?;
    Ok(())
}

#[cycle(write)]
fn write_bag(text: &mut String, elements: &[Value]) -> Result<(), Memory>
    ensures { OnOk result (string_bytes text.new
        ≡ string_bytes text.old ++ traced_written (bag_of (map nested elements.now))) }
{
    text.push_str("{")?;
    write_elements(text, elements)?;
    text.push_str("}")?;
    Ok(())
}

#[cycle(write)]
fn write_fields(text: &mut String, fields: &[(Label, Value)]) -> Result<(), Memory>
    ensures { OnOk result (string_bytes text.new
        ≡ string_bytes text.old ++ fields_written 0 (fields_of (fields_view fields.now))) }
{
    for (place, (label, value)) in fields.iter().enumerate() {
        write_separator(text, place)?;
        text.push_str(label.as_str())?;
        text.push_str(" = ")?;
        write_value(text, value)?;
    }
    Ok(())
}

#[cycle(write)]
fn write_elements(text: &mut String, elements: &[Value]) -> Result<(), Memory>
    ensures { OnOk result (string_bytes text.new
        ≡ string_bytes text.old
        ++ elements_written 0 (elements_of (map nested elements.now))) }
{
    for (place, element) in elements.iter().enumerate() {
        write_separator(text, place)?;
        write_element(text, element)?;
    }
    Ok(())
}

#[cycle(write)]
#[tactic(auto, using(nq_model::proofs::Trees::nested_record, nq_model::proofs::Trees::nested_bag))]
fn write_element(text: &mut String, element: &Value) -> Result<(), Memory>
    ensures { OnOk result (string_bytes text.new
        ≡ string_bytes text.old ++ element_written (nested element.now)) }
{
    match element {
        Value::Rec(fields) => write_parts(text, fields.as_slice()),
        Value::Int(_) | Value::Bool(_) | Value::Text(_) | Value::Bag(_) => Ok(()),
    }
}

// An element's value, and its rows.
#[cycle(write)]
fn write_parts(text: &mut String, parts: &[(Label, Value)]) -> Result<(), Memory>
    ensures { OnOk result (string_bytes text.new
        ≡ string_bytes text.old ++ element_written (rec_of (fields_view parts.now))) }
{
    if parts.is_empty() {
        return Ok(());
    }
    write_value(text, &parts[0].1)?;
    write_all_rows(text, &parts[1..])?;
    Ok(())
}

fn write_all_rows(text: &mut String, parts: &[(Label, Value)]) -> Result<(), Memory>
    ensures { OnOk result (string_bytes text.new
        ≡ string_bytes text.old ++ rows_written (fields_of (fields_view parts.now))) }
{
    for part in parts {
        write_rows(text, &part.1)?;
    }
    Ok(())
}

fn write_rows(text: &mut String, rows: &Value) -> Result<(), Memory>
    ensures { OnOk result (string_bytes text.new
        ≡ string_bytes text.old ++ rows_text (nested rows.now)) }
{
    text.push_str(" @ [")?;
    write_names(text, elements_in(rows))?;
    text.push_str("]")?;
    Ok(())
}

fn write_names(text: &mut String, rows: &[Value]) -> Result<(), Memory>
    ensures { OnOk result (string_bytes text.new
        ≡ string_bytes text.old ++ names_text 0 (map nested rows.now)) }
{
    for (place, row) in rows.iter().enumerate() {
        write_separator(text, place)?;
        write_name(text, row)?;
    }
    Ok(())
}

fn write_name(text: &mut String, row: &Value) -> Result<(), Memory>
    ensures { OnOk result (string_bytes text.new
        ≡ string_bytes text.old ++ name_text (name_of (nested row.now))) }
{
    text.push_str(text_under(TABLE, row))?;
    text.push_str(" ")?;
    text.push_str(Buffer::new().format(number_under(NUMBER, row)))?;
    Ok(())
}
