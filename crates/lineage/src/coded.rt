// Traced values as values: an element is the record of its value and its rows, and each row that of
// its place, its table and its number.
ghost use Rattle.std.specs.Prelude.{◌≡◌, IfOk, map};
ghost use Rattle.nq_model.specs.Values.{nested, fields_view};
ghost use Rattle.traced_meaning.specs.TracedValues.{element_of, row_at, rows_value};
ghost use Rattle.lineage.specs.TracedTrees.{traced, traced_element, traced_fields, row_name};

use crate::traced::{RowName, Traced, TracedElement};
use nq_model::{Label, List, Memory, Text, Value};
use std::alloc::Global;

/// The label of an element's value, and that of its rows.
const VALUE: &str = "e";

const ROWS: &str = "r";

/// The labels of a row's place, table and number.
const PLACE: &str = "a";

pub(crate) const TABLE: &str = "b";

pub(crate) const NUMBER: &str = "c";

/// The value that stands for a traced value, whose parts are moved and not copied.
#[cycle(code)]
#[tactic(auto, using(crate::proofs::Views::traced_forms))]
pub(crate) fn coded(alloc: Global, of: Traced) -> Result<Value, Memory>
    ensures { IfOk result (λ value. nested value ≡ traced of) }
{
    match of {
        Traced::Int(number) => Ok(Value::Int(number)),
        Traced::Bool(truth) => Ok(Value::Bool(truth)),
        Traced::Text(text) => Ok(Value::Text(text)),
        Traced::Rec(fields) => Ok(Value::Rec(coded_fields(alloc, fields)?)),
        Traced::Bag(elements) => Ok(Value::Bag(coded_elements(alloc, elements)?)),
    }
}

#[cycle(code)]
fn coded_fields(
    alloc: Global,
    fields: List<(Label, Traced)>,
) -> Result<List<(Label, Value)>, Memory>
    ensures { IfOk result (λ values. fields_view values ≡ traced_fields fields) }
{
    let mut values = List::with_capacity(alloc, fields.len())?;
    for (label, value) in fields.into_vec() {
        values.push((label, coded(alloc, value)?))?;
    }
    Ok(values)
}

#[cycle(code)]
#[tactic(auto, using(crate::proofs::Views::element_is))]
fn coded_elements(alloc: Global, elements: List<TracedElement>) -> Result<List<Value>, Memory>
    ensures { IfOk result (λ values. map nested values ≡ map traced_element elements) }
{
    let mut values = List::with_capacity(alloc, elements.len())?;
    for element in elements.into_vec() {
        let TracedElement { value, rows } = element;
        let value = coded(alloc, value)?;
        values.push(coded_element(alloc, value, coded_rows(alloc, rows.as_slice())?)?)?;
    }
    Ok(values)
}

#[tactic(auto, using(nq_model::proofs::Trees::nested_record))]
fn coded_element(alloc: Global, value: Value, rows: Value) -> Result<Value, Memory>
    ensures { IfOk result (λ made. nested made ≡ element_of (nested value) (nested rows)) }
{
    let mut fields = List::with_capacity(alloc, 2)?;
    fields.push((Label::from_str(alloc, VALUE)?, value))?;
    fields.push((Label::from_str(alloc, ROWS)?, rows))?;
    Ok(Value::Rec(fields))
}

#[tactic(auto, using(nq_model::proofs::Trees::nested_bag))]
fn coded_rows(alloc: Global, rows: &[RowName]) -> Result<Value, Memory>
    ensures { IfOk result (λ made. nested made ≡ rows_value (map row_name rows.now)) }
{
    let mut coded = List::with_capacity(alloc, rows.len())?;
    for place in 0..rows.len() {
        coded.push(coded_row(alloc, place + 1, &rows[place])?)?;
    }
    Ok(Value::Bag(coded))
}

// The row at a place. No memory holds more rows than there are places.
#[tactic(auto, using(nq_model::proofs::Trees::nested_record))]
fn coded_row(alloc: Global, place: usize, row: &RowName) -> Result<Value, Memory>
    ensures { IfOk result (λ made. nested made ≡ row_at place (row_name row.now)) }
{
    let Ok(place) = i64::try_from(place) else {
        return Err(Memory);
    };
    let mut fields = List::with_capacity(alloc, 3)?;
    fields.push((Label::from_str(alloc, PLACE)?, Value::Int(place)))?;
    let table = Text::from_str(alloc, row.table.as_str())?;
    fields.push((Label::from_str(alloc, TABLE)?, Value::Text(table)))?;
    fields.push((Label::from_str(alloc, NUMBER)?, Value::Int(row.row)))?;
    Ok(Value::Rec(fields))
}
