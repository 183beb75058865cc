// The value of a type whose JSON form a JSON value is.
ghost use Rattle.std.specs.Prelude.{◌≡◌, ◌≢◌, ◌+◌, IfOk, IfErr, IfSome, OnOk, Ok, IsTrue, map, option_and_then};
ghost use Rattle.nq_model.specs.Orders.{AreRising};
ghost use Rattle.nq_model.specs.Proper.{IsOrdered};
ghost use Rattle.nq_model.specs.Types.{TypeTree, type_tree};
ghost use Rattle.nq_model.specs.Values.{Nested, nested, elements_of};
ghost use Rattle.serde_json.specs.Data.{number};
ghost use Rattle.serde_json.specs.Find.{as_i64, as_number, of_integer};
ghost use Rattle.serde_json.specs.View.{view, items_view};
ghost use Rattle.nq_json.specs.Json.{json};
ghost use Rattle.nq_json.specs.Shapes.{faults, items_faults, fields_faults, has_labels, keys_of, FaultSays, IsValueOf};
ghost use Rattle.nq_json.specs.Reading.{types_of, values_of, members, Reads, ReadsItems, ReadsFields};
ghost use Rattle.nq_json.specs.declared.shape.JsonFault.TheVariants as fault;

use nq_model::{Label, List, Memory, Text, Ty, Value};
use serde_json::{Map, Value as Json};
use std::alloc::Global;
use thiserror::Error;

/// Why a JSON value is the form of no value of a type.
#[derive(Clone, Copy, Debug, PartialEq, Eq, Error)]
pub enum JsonFault {
    /// Too little memory, at any JSON value.
    #[error("want of memory")]
    Memory,
    /// The node of this number is the first faulty one. Nodes are counted from 1 in pre-order, with
    /// members in the order of their keys.
    #[error("node {node} is not of its type")]
    Shape { node: u64 },
}

impl From<Memory> for JsonFault {
    ghost use Rattle.std.specs.Prelude.{◌≡◌};
    ghost use Rattle.nq_json.specs.declared.shape.JsonFault.TheVariants as fault;

    ghost from_gives = { λ _ e. e ≡ fault.Memory };

    fn from(_: Memory) -> JsonFault {
        JsonFault::Memory
    }
}

// Steps to the number of the next node.
fn advance(node: &mut u64) -> Result<(), Memory>
    ensures { OnOk result (node.new ≡ node.old + 1) }
{
    *node = node.checked_add(1).ok_or(Memory)?;
    Ok(())
}

// The integer of 64 bits that a JSON value is.
fn integer(json: &Json) -> Option<i64>
    ensures is { result ≡ option_and_then as_i64 (as_number (view json.now)) }
    ensures form { IfSome result (λ n. view json.now ≡ number (of_integer n)) }
{
    match json {
        Json::Number(number) => number.as_i64(),
        _ => None,
    }
}

// An int, from the node of a number on.
fn read_int(json: &Json, node: &mut u64) -> Result<Value, JsonFault>
    ensures ok { IfOk result (λ v.
        Reads TypeTree.int node.old (view json.now) node.new (nested v)) }
    ensures fault { IfErr result (FaultSays (faults TypeTree.int node.old (view json.now))) }
{
    let Some(number) = integer(json) else {
        return Err(JsonFault::Shape { node: *node });
    };
    advance(node)?;
    Ok(Value::Int(number))
}

// A truth value, from the node of a number on.
fn read_bool(json: &Json, node: &mut u64) -> Result<Value, JsonFault>
    ensures ok { IfOk result (λ v.
        Reads TypeTree.bool node.old (view json.now) node.new (nested v)) }
    ensures fault { IfErr result (FaultSays (faults TypeTree.bool node.old (view json.now))) }
{
    let Some(truth) = json.as_bool() else {
        return Err(JsonFault::Shape { node: *node });
    };
    advance(node)?;
    Ok(Value::Bool(truth))
}

// A text, from the node of a number on.
fn read_text(alloc: Global, json: &Json, node: &mut u64) -> Result<Value, JsonFault>
    ensures ok { IfOk result (λ v.
        Reads TypeTree.text node.old (view json.now) node.new (nested v)) }
    ensures fault { IfErr result (FaultSays (faults TypeTree.text node.old (view json.now))) }
{
    let Some(text) = json.as_str() else {
        return Err(JsonFault::Shape { node: *node });
    };
    advance(node)?;
    Ok(Value::Text(Text::from_str(alloc, text)?))
}

// Whether the keys of an object are the labels of fields, in the same order.
fn has_labels(fields: &[(Label, Ty)], map: &Map<String, Json>) -> bool
    ensures is { result ≡ has_labels (types_of fields.now) (members map.now) }
    ensures rising { AreRising (keys_of (members map.now)) }
{
    let mut keys = map.keys();
    for field in fields {
        let Some(key) = keys.next() else {
            return false;
        };
        if key.as_str() != field.0.as_str() {
            return false;
        }
    }
    keys.next().is_none()
}

// A record, from the node of a number on.
#[cycle(read)]
fn read_record(
    alloc: Global,
    fields: &[(Label, Ty)],
    json: &Json,
    node: &mut u64,
) -> Result<Value, JsonFault>
    ensures ok { IfOk result (λ v. Reads (TypeTree.rec (types_of fields.now)) node.old
        (view json.now) node.new (nested v)) }
    ensures fault { IfErr result
        (FaultSays (faults (TypeTree.rec (types_of fields.now)) node.old (view json.now))) }
{
    let Some(map) = json.as_object() else {
        return Err(JsonFault::Shape { node: *node });
    };
    if !has_labels(fields, map) {
        return Err(JsonFault::Shape { node: *node });
    }
    advance(node)?;
    Ok(Value::Rec(read_fields(alloc, fields, map, node)?))
}

// The fields of a record, from the node of the first on.
#[cycle(read)]
fn read_fields(
    alloc: Global,
    fields: &[(Label, Ty)],
    map: &Map<String, Json>,
    node: &mut u64,
) -> Result<List<(Label, Value)>, JsonFault>
    requires { IsTrue (has_labels (types_of fields.now) (members map.now)) }
    ensures ok { IfOk result (λ values. ReadsFields (types_of fields.now) node.old
        (members map.now) node.new (values_of values)) }
    ensures fault { IfErr result
        (FaultSays (fields_faults (types_of fields.now) node.old (members map.now))) }
{
    let mut values = List::with_capacity(alloc, fields.len())?;
    let mut members = map.iter();
    for field in fields {
        let Some((_, member)) = members.next() else {
            unreachable!();
        };
        let value = read(alloc, &field.1, member, node)?;
        values.push((field.0.copy(alloc)?, value))?;
    }
    Ok(values)
}

// A bag, from the node of a number on.
#[cycle(read)]
#[tactic(auto, using(nq_model::proofs::Trees::nested_bag))]
fn read_bag(alloc: Global, of: &Ty, json: &Json, node: &mut u64) -> Result<Value, JsonFault>
    ensures ok { IfOk result (λ v. Reads (TypeTree.bag (type_tree of.now)) node.old
        (view json.now) node.new (nested v)) }
    ensures fault { IfErr result
        (FaultSays (faults (TypeTree.bag (type_tree of.now)) node.old (view json.now))) }
{
    let Some(items) = json.as_array() else {
        return Err(JsonFault::Shape { node: *node });
    };
    advance(node)?;
    Ok(Value::Bag(read_items(alloc, of, items, node)?))
}

// The elements of a bag, from the node of the first on.
#[cycle(read)]
fn read_items(
    alloc: Global,
    of: &Ty,
    items: &[Json],
    node: &mut u64,
) -> Result<List<Value>, JsonFault>
    ensures ok { IfOk result (λ values. ReadsItems (type_tree of.now) node.old
        (items_view items.now) node.new (elements_of (map nested values))) }
    ensures fault { IfErr result
        (FaultSays (items_faults (faults (type_tree of.now)) node.old (items_view items.now))) }
{
    let mut values = List::with_capacity(alloc, items.len())?;
    for item in items {
        values.push(read(alloc, of, item, node)?)?;
    }
    Ok(values)
}

// The value of a type, from the node of a number on.
#[cycle(read)]
#[tactic(auto, using(nq_model::proofs::Terms::type_of_record))]
fn read(alloc: Global, of: &Ty, json: &Json, node: &mut u64) -> Result<Value, JsonFault>
    ensures ok { IfOk result (λ v.
        Reads (type_tree of.now) node.old (view json.now) node.new (nested v)) }
    ensures fault { IfErr result (FaultSays (faults (type_tree of.now) node.old (view json.now))) }
{
    match of {
        Ty::Int => read_int(json, node),
        Ty::Bool => read_bool(json, node),
        Ty::Text => read_text(alloc, json, node),
        Ty::Rec(fields) => read_record(alloc, fields.as_slice(), json, node),
        Ty::Bag(element) => read_bag(alloc, element, json, node),
        Ty::Fun(_, _) => Err(JsonFault::Shape { node: *node }),
    }
}

/// The value of a type whose JSON form this is. `JsonFault::Shape` comes exactly where there is
/// none, with the number of the first faulty node; `JsonFault::Memory` alone may come at any JSON
/// value.
pub fn value_of(alloc: Global, of: &Ty, json: &Json) -> Result<Value, JsonFault>
    ensures value { IfOk result (λ value.
        IsValueOf (type_tree of.now) (view json.now) (nested value)) }
    ensures only { IfOk result (λ value. IsOrdered (type_tree of.now)
        → (v : Nested) → IsValueOf (type_tree of.now) (view json.now) v → v ≡ nested value) }
    ensures fault { IfErr result (FaultSays (faults (type_tree of.now) 1 (view json.now))) }
    ensures none { IfErr result (λ e. e ≢ fault.Memory → IsOrdered (type_tree of.now)
        → (v : Nested) → IsValueOf (type_tree of.now) (view json.now) v → ⊥) }
{
    let mut node = 1;
    read(alloc, of, json, &mut node)
}
