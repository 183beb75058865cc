// Values without their rows.
ghost use Rattle.std.specs.Prelude.{◌≡◌, IfOk, map};
ghost use Rattle.nq_model.specs.Values.{nested, fields_view};
ghost use Rattle.traced_meaning.specs.TracedValues.{erased, erased_element};
ghost use Rattle.lineage.specs.TracedTrees.{traced, traced_element, traced_fields};

use crate::traced::{Traced, TracedElement};
use nq_model::{Label, List, Memory, Value};
use std::alloc::Global;

/// The value without the names of rows. Fails only if memory runs out.
#[cycle(erase)]
#[tactic(auto, using(crate::proofs::Views::traced_forms, crate::proofs::Views::erased_forms))]
pub fn erase(alloc: Global, of: &Traced) -> Result<Value, Memory>
    ensures { IfOk result (λ value. nested value ≡ erased (traced of.now)) }
{
    match of {
        Traced::Int(number) => Ok(Value::Int(*number)),
        Traced::Bool(truth) => Ok(Value::Bool(*truth)),
        Traced::Text(text) => Ok(Value::Text(text.copy(alloc)?)),
        Traced::Rec(fields) => Ok(Value::Rec(erase_fields(alloc, fields.as_slice())?)),
        Traced::Bag(elements) => Ok(Value::Bag(erase_elements(alloc, elements.as_slice())?)),
    }
}

#[cycle(erase)]
fn erase_fields(alloc: Global, fields: &[(Label, Traced)]) -> Result<List<(Label, Value)>, Memory>
    ensures { IfOk result (λ values. fields_view values ≡ map
        (λ f. (f.0, erased f.1)) (traced_fields fields.now)) }
{
    let mut values = List::with_capacity(alloc, fields.len())?;
    for field in fields {
        values.push((field.0.copy(alloc)?, erase(alloc, &field.1)?))?;
    }
    Ok(values)
}

#[cycle(erase)]
#[tactic(auto, using(crate::proofs::Views::element_is))]
fn erase_elements(alloc: Global, elements: &[TracedElement]) -> Result<List<Value>, Memory>
    ensures { IfOk result (λ values.
        map nested values ≡ map erased_element (map traced_element elements.now)) }
{
    let mut values = List::with_capacity(alloc, elements.len())?;
    for element in elements {
        values.push(erase(alloc, &element.value)?)?;
    }
    Ok(values)
}
