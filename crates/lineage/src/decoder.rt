// What values of a traced form's type are as traced values.
ghost use Rattle.std.specs.Prelude.{◌≡◌, IfOk, map};
ghost use Rattle.nq_model.specs.Values.{nested, fields_of, fields_view, Same};
ghost use Rattle.nq_model.specs.declared.table.Schema.{Schema};
ghost use Rattle.nq_ir.specs.Meanings.{Tables, form_meaning};
ghost use Rattle.nq_ir.specs.Trees.{FormTree, form_tree};
ghost use Rattle.nq_ir.specs.WellFormed.{IsWellFormed};
ghost use Rattle.traced_meaning.specs.TracedForms.{traced_meaning};
ghost use Rattle.lineage.specs.Decoding.{
  tables_of,
  tables_at,
  element_rows,
  decoded,
  decoded_element,
  decoded_whole,
  form_decoded,
};
ghost use Rattle.lineage.specs.ListedTables.{listed};
ghost use Rattle.lineage.specs.Places.{lent, under};
ghost use Rattle.lineage.specs.TraceForms.{form_traced};
ghost use Rattle.lineage.specs.TracedTrees.{traced, traced_element, traced_fields, row_name};

use crate::fields::{TAG, WHOLE, row_label};
use crate::form::TraceForm;
use crate::found::{elements_in, number_under};
use crate::places::{inside, push_bodies, push_tags, tags_in, under};
use crate::traced::{RowName, Traced, TracedElement};
use nq_ir::Body;
use nq_model::{Label, List, Memory, Value};
use std::alloc::Global;

/// The traced value of a value of a traced form. An element whose `at` is the tag of a
/// comprehension at the element's own path has a row of each table that is listed for the tag, in
/// order, the k-th with the number in `rk`. An element with any other `at` has no rows, so no value
/// is refused. Of the traced form of a well-formed form, what the form means over tables with
/// numbers has the form's traced meaning. Fails only if memory runs out.
pub fn decode(alloc: Global, form: &TraceForm, value: &Value) -> Result<Traced, Memory>
    ensures value { IfOk result (λ made. traced made
        ≡ form_decoded form.now.tables (form_tree form.now.normal) (nested value.now)) }
    ensures meaning { IfOk result (λ made. (schema : Schema) (of : FormTree) (ts : Tables)
        → IsWellFormed schema.tables of → form_tree form.now.normal ≡ form_traced of
        → form.now.tables ≡ listed of.comps
        → Same (nested value.now) (form_meaning ts (form_traced of))
        → Same (traced made) (traced_meaning ts of)) }
{
    let comps = form.normal.parts.as_slice();
    let mut tags = Vec::new(alloc);
    push_tags(comps, &mut tags)?;
    let mut bodies = Vec::new(alloc);
    push_bodies(comps, &mut bodies)?;
    let inner = under(alloc, WHOLE, bodies.as_slice())?;
    let tables = form.tables.as_slice();
    let elements = elements_in(value);
    let elements = elements_decoded(alloc, elements, tables, tags.as_slice(), inner.as_slice())?;
    Ok(Traced::Bag(elements))
}

// The traced value of a value, where these bodies of the traced form stand at its place.
#[cycle(decode)]
#[tactic(auto, using(crate::proofs::Views::traced_forms, crate::proofs::Views::decoded_forms))]
fn decoded(
    alloc: Global,
    value: &Value,
    tables: &[(u64, List<Label>)],
    here: &[&Body],
) -> Result<Traced, Memory>
    ensures { IfOk result
        (λ made. traced made ≡ decoded tables.now (lent here.now) (nested value.now)) }
{
    match value {
        Value::Int(number) => Ok(Traced::Int(*number)),
        Value::Bool(truth) => Ok(Traced::Bool(*truth)),
        Value::Text(text) => Ok(Traced::Text(text.copy(alloc)?)),
        Value::Rec(fields) => {
            let fields = fields_decoded(alloc, fields.as_slice(), tables, here)?;
            Ok(Traced::Rec(fields))
        }
        Value::Bag(elements) => {
            let tags = tags_in(alloc, here)?;
            let bodies = inside(alloc, here)?;
            let inner = under(alloc, WHOLE, bodies.as_slice())?;
            let elements = elements.as_slice();
            let elements = elements_decoded(
                alloc,
                elements,
                tables,
                tags.as_slice(),
                inner.as_slice(),
            )?;
            Ok(Traced::Bag(elements))
        }
    }
}

#[cycle(decode)]
fn fields_decoded(
    alloc: Global,
    fields: &[(Label, Value)],
    tables: &[(u64, List<Label>)],
    here: &[&Body],
) -> Result<List<(Label, Traced)>, Memory>
    ensures { IfOk result (λ made. traced_fields made ≡ map
        (λ f. (f.0, decoded tables.now (under f.0 (lent here.now)) f.1)) (fields_view fields.now)) }
{
    let mut made = List::with_capacity(alloc, fields.len())?;
    for field in fields {
        let inner = under(alloc, field.0.as_str(), here)?;
        let value = decoded(alloc, &field.1, tables, inner.as_slice())?;
        made.push((field.0.copy(alloc)?, value))?;
    }
    Ok(made)
}

#[cycle(decode)]
fn elements_decoded(
    alloc: Global,
    elements: &[Value],
    tables: &[(u64, List<Label>)],
    tags: &[u64],
    inner: &[&Body],
) -> Result<List<TracedElement>, Memory>
    ensures { IfOk result (λ made. map traced_element made
        ≡ map (decoded_element tables.now tags.now (lent inner.now)) (map nested elements.now)) }
{
    let mut made = List::with_capacity(alloc, elements.len())?;
    for element in elements {
        made.push(element_decoded(alloc, element, tables, tags, inner)?)?;
    }
    Ok(made)
}

#[cycle(decode)]
#[tactic(auto, using(crate::proofs::Views::element_forms))]
fn element_decoded(
    alloc: Global,
    element: &Value,
    tables: &[(u64, List<Label>)],
    tags: &[u64],
    inner: &[&Body],
) -> Result<TracedElement, Memory>
    ensures { IfOk result (λ made. traced_element made
        ≡ decoded_element tables.now tags.now (lent inner.now) (nested element.now)) }
{
    match element {
        Value::Rec(fields) => Ok(TracedElement {
            value: whole_decoded(alloc, fields.as_slice(), tables, inner)?,
            rows: element_rows(alloc, tables, tags, element)?,
        }),
        Value::Int(_) | Value::Bool(_) | Value::Text(_) | Value::Bag(_) => Ok(TracedElement {
            value: Traced::Bool(false),
            rows: element_rows(alloc, tables, tags, element)?,
        }),
    }
}

#[cycle(decode)]
fn whole_decoded(
    alloc: Global,
    fields: &[(Label, Value)],
    tables: &[(u64, List<Label>)],
    inner: &[&Body],
) -> Result<Traced, Memory>
    ensures { IfOk result (λ made. traced made
        ≡ decoded_whole tables.now (lent inner.now) (fields_of (fields_view fields.now))) }
{
    for field in fields {
        if field.0.as_str() == WHOLE {
            return decoded(alloc, &field.1, tables, inner);
        }
    }
    Ok(Traced::Bool(false))
}

// The rows of an element, where the comprehensions at its path have these tags.
fn element_rows(
    alloc: Global,
    tables: &[(u64, List<Label>)],
    tags: &[u64],
    element: &Value,
) -> Result<List<RowName>, Memory>
    ensures { IfOk result (λ rows. map row_name rows
        ≡ element_rows tables.now tags.now (nested element.now)) }
{
    let tables = tables_at(tables, tags, number_under(TAG, element));
    let mut rows = List::with_capacity(alloc, tables.len())?;
    for place in 0..tables.len() {
        let label = row_label(alloc, place + 1)?;
        rows.push(RowName {
            table: tables[place].copy(alloc)?,
            row: number_under(label.as_str(), element),
        })?;
    }
    Ok(rows)
}

// The tables that are listed for the tag that the number is, if it is one of these.
fn tables_at<'a>(tables: &'a [(u64, List<Label>)], tags: &[u64], at: i64) -> &'a [Label]
    ensures { result.now ≡ tables_at tables.now tags.now at }
{
    for tag in tags {
        if i128::from(*tag) == i128::from(at) {
            return tables_of(tables, *tag);
        }
    }
    &[]
}

// The tables that are listed for a tag.
fn tables_of(tables: &[(u64, List<Label>)], tag: u64) -> &[Label]
    ensures { result.now ≡ tables_of tables.now tag }
{
    for entry in tables {
        if entry.0 == tag {
            return entry.1.as_slice();
        }
    }
    &[]
}
