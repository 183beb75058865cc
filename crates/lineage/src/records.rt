// Traced values as values of records alone.
ghost use Rattle.std.specs.Prelude.{◌≡◌, IfOk, map};
ghost use Rattle.nq_model.specs.Canonical.{canonical};
ghost use Rattle.nq_model.specs.Values.{nested, fields_of, fields_view, rec_of};
ghost use Rattle.traced_meaning.specs.TracedValues.{name_of};
ghost use Rattle.lineage.specs.Recorded.{
  element_recorded,
  name_listed,
  recorded,
  row_listed,
  rows_listed,
};
ghost use Rattle.lineage.specs.TracedTrees.{traced};

use crate::coded::{NUMBER, TABLE, coded};
use crate::fields::WHOLE;
use crate::found::{elements_in, number_under, text_under};
use crate::traced::Traced;
use canon::sort_deep;
use nq_model::{Label, List, Memory, Text, Value};
use std::alloc::Global;

// The label of an element's rows.
const ROWS: &str = "rows";

/// The canonical form of a traced value, in which each element is a record: of its `rows`, each a
/// bag of the name of a table and the number of a row, and of its `value`. Such a bag keeps its
/// order, so the value is for writing. Fails only if memory runs out.
pub fn recorded(alloc: Global, of: Traced) -> Result<Value, Memory>
    ensures { IfOk result (λ made. nested made ≡ recorded (canonical (traced of))) }
{
    let value = sort_deep(alloc, coded(alloc, of)?)?;
    value_recorded(alloc, &value)
}

#[cycle(record)]
#[tactic(auto, using(crate::proofs::Recording::recorded_forms))]
fn value_recorded(alloc: Global, value: &Value) -> Result<Value, Memory>
    ensures { IfOk result (λ made. nested made ≡ recorded (nested value.now)) }
{
    match value {
        Value::Int(number) => Ok(Value::Int(*number)),
        Value::Bool(truth) => Ok(Value::Bool(*truth)),
        Value::Text(text) => Ok(Value::Text(text.copy(alloc)?)),
        Value::Rec(fields) => Ok(Value::Rec(fields_recorded(alloc, fields.as_slice())?)),
        Value::Bag(elements) => Ok(Value::Bag(elements_recorded(alloc, elements.as_slice())?)),
    }
}

#[cycle(record)]
fn fields_recorded(alloc: Global, fields: &[(Label, Value)]) -> Result<List<(Label, Value)>, Memory>
    ensures { IfOk result (λ made. fields_view made
        ≡ map (λ f. (f.0, recorded f.1)) (fields_view fields.now)) }
{
    let mut made = List::with_capacity(alloc, fields.len())?;
    for field in fields {
        made.push((field.0.copy(alloc)?, value_recorded(alloc, &field.1)?))?;
    }
    Ok(made)
}

#[cycle(record)]
fn elements_recorded(alloc: Global, elements: &[Value]) -> Result<List<Value>, Memory>
    ensures { IfOk result (λ made. map nested made
        ≡ map element_recorded (map nested elements.now)) }
{
    let mut made = List::with_capacity(alloc, elements.len())?;
    for element in elements {
        made.push(element_recorded(alloc, element)?)?;
    }
    Ok(made)
}

#[cycle(record)]
#[tactic(auto, using(crate::proofs::Recording::recorded_forms))]
fn element_recorded(alloc: Global, element: &Value) -> Result<Value, Memory>
    ensures { IfOk result (λ made. nested made ≡ element_recorded (nested element.now)) }
{
    match element {
        Value::Rec(parts) => parts_recorded(alloc, parts.as_slice()),
        Value::Int(_) | Value::Bool(_) | Value::Text(_) | Value::Bag(_) => Ok(Value::Bool(false)),
    }
}

// An element of these parts: its value, and its rows.
#[cycle(record)]
#[tactic(auto, using(crate::proofs::Recording::recorded_forms))]
fn parts_recorded(alloc: Global, parts: &[(Label, Value)]) -> Result<Value, Memory>
    ensures { IfOk result (λ made. nested made
        ≡ element_recorded (rec_of (fields_view parts.now))) }
{
    let Some((whole, others)) = parts.split_first() else {
        return Ok(Value::Bool(false));
    };
    let rows = rows_listed(alloc, others)?;
    let value = value_recorded(alloc, &whole.1)?;
    let mut fields = List::with_capacity(alloc, 2)?;
    fields.push((Label::from_str(alloc, ROWS)?, rows))?;
    fields.push((Label::from_str(alloc, WHOLE)?, value))?;
    Ok(Value::Rec(fields))
}

// The rows in the first of these fields.
#[tactic(auto, using(crate::proofs::Recording::recorded_forms))]
fn rows_listed(alloc: Global, parts: &[(Label, Value)]) -> Result<Value, Memory>
    ensures { IfOk result (λ made. nested made ≡ rows_listed (fields_of (fields_view parts.now))) }
{
    match parts.split_first() {
        None => Ok(Value::Bag(List::new(alloc))),
        Some((part, _)) => Ok(Value::Bag(all_listed(alloc, elements_in(&part.1))?)),
    }
}

fn all_listed(alloc: Global, rows: &[Value]) -> Result<List<Value>, Memory>
    ensures { IfOk result (λ made. map nested made ≡ map row_listed (map nested rows.now)) }
{
    let mut made = List::with_capacity(alloc, rows.len())?;
    for row in rows {
        made.push(row_listed(alloc, row)?)?;
    }
    Ok(made)
}

// A row: the name of its table, and its number.
#[tactic(auto, using(crate::proofs::Recording::recorded_forms))]
fn row_listed(alloc: Global, row: &Value) -> Result<Value, Memory>
    ensures { IfOk result (λ made. nested made ≡ name_listed (name_of (nested row.now))) }
{
    let mut pair = List::with_capacity(alloc, 2)?;
    pair.push(Value::Text(Text::from_str(alloc, text_under(TABLE, row))?))?;
    pair.push(Value::Int(number_under(NUMBER, row)))?;
    Ok(Value::Bag(pair))
}
