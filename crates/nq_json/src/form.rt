// Values as JSON.
ghost use Rattle.std.specs.Prelude.{◌≡◌, ◌≤◌, false, IfOk, Some, map};
ghost use Rattle.std.specs.Str.{IsUtf8};
ghost use Rattle.nq_model.specs.Values.{nested, fields_of, fields_view, elements_of};
ghost use Rattle.serde_json.specs.Data.{depth};
ghost use Rattle.serde_json.specs.Read.{read, max_depth};
ghost use Rattle.serde_json.specs.View.{view, items_view, members_view};
ghost use Rattle.serde_json.specs.Written.{has_float};
ghost use Rattle.nq_json.specs.Json.{json, members_json, items_json, json_line, json_text};

use nq_model::{Label, List, Memory, Value};
use serde_json::{Map, Value as Json};
use std::alloc::Global;

/// The JSON form of a value: an integer is a number, a truth value a truth value, a text a string,
/// a record an object with its labels as keys, and a bag an array of its elements in their order.
/// Fails only if memory runs out.
#[cycle(json)]
#[tactic(auto, using(nq_model::proofs::Trees::nested_record, nq_model::proofs::Trees::nested_bag))]
pub fn json_of(alloc: Global, value: &Value) -> Result<Json, Memory>
    ensures { IfOk result (λ made. view made ≡ json (nested value.now)) }
{
    match value {
        Value::Int(number) => Ok(Json::from(*number)),
        Value::Bool(truth) => Ok(Json::from(*truth)),
        Value::Text(text) => Ok(Json::try_from_str(alloc, text.as_str())?),
        Value::Rec(fields) => Ok(Json::from(members(alloc, fields.as_slice())?)),
        Value::Bag(elements) => Ok(Json::from(items(alloc, elements.as_slice())?)),
    }
}

// The members of the object of a record.
#[cycle(json)]
fn members(alloc: Global, fields: &[(Label, Value)]) -> Result<Map<String, Json>, Memory>
    ensures { IfOk result (λ map.
        members_view map.entries ≡ members_json (fields_of (fields_view fields.now))) }
{
    let mut map = Map::new(alloc);
    for done in 0..fields.len() {
        let field = &fields[fields.len() - 1 - done];
        let member = json_of(alloc, &field.1)?;
        let name = String::from_str(alloc, field.0.as_str())?;
        drop(map.insert(name, member)?);
    }
    Ok(map)
}

// The items of the array of a bag.
#[cycle(json)]
fn items(alloc: Global, elements: &[Value]) -> Result<Vec<Json>, Memory>
    ensures { IfOk result (λ items.
        items_view items.items ≡ items_json (elements_of (map nested elements.now))) }
{
    let mut items = Vec::with_capacity(alloc, elements.len())?;
    for element in elements {
        items.push(json_of(alloc, element)?)?;
    }
    Ok(items)
}

/// The compact text of a JSON value without a float, and a newline. It is read back where the value
/// nests at most 127 deep. Fails only if memory runs out.
pub fn write_line(alloc: Global, json: &Json) -> Result<List<u8>, Memory>
    requires { has_float (view json.now) ≡ false }
    ensures text { IfOk result (λ text. text ≡ json_line (view json.now)) }
    ensures utf8 { IfOk result (λ text. IsUtf8 text) }
    ensures reads_back { IfOk result (λ text. depth (view json.now) ≤ max_depth
        → read text ≡ Some (view json.now)) }
{
    let mut text = json.to_vec(alloc)?;
    text.push(b'\n')?;
    Ok(List::from_vec(text))
}

/// The compact text of the JSON form of a value, and a newline. It is read back where the form
/// nests at most 127 deep. Fails only if memory runs out.
pub fn write_json(alloc: Global, value: &Value) -> Result<List<u8>, Memory>
    ensures text { IfOk result (λ text. text ≡ json_text (nested value.now)) }
    ensures utf8 { IfOk result (λ text. IsUtf8 text) }
    ensures reads_back { IfOk result (λ text. depth (json (nested value.now)) ≤ max_depth
        → read text ≡ Some (json (nested value.now))) }
{
    let form = json_of(alloc, value)?;
    let text = write_line(alloc, &form)?;
    Ok(text)
}
