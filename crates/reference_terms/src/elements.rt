// The elements of bags.
ghost use Rattle.std.specs.Prelude.{◌≡◌, ◌++◌, map, OnOk};
ghost use Rattle.nq_model.specs.Meaning.{elements_in};
ghost use Rattle.nq_model.specs.Values.{nested};

use nq_model::{List, Memory, Value};
use std::alloc::Global;

/// The elements of a bag; another value counts as one without elements.
#[tactic(auto, using(nq_model::proofs::Trees::nested_bag, crate::proofs::Bags::elements_back))]
pub fn elements_in(alloc: Global, value: Value) -> List<Value>
    ensures { map nested result ≡ elements_in (nested value) }
{
    match value {
        Value::Int(_) => List::new(alloc),
        Value::Bool(_) => List::new(alloc),
        Value::Text(_) => List::new(alloc),
        Value::Rec(_) => List::new(alloc),
        Value::Bag(elements) => elements,
    }
}

/// Moves values behind those that are there. Fails only if memory runs out; some of the values may
/// have been moved then.
pub fn append(all: &mut List<Value>, more: List<Value>) -> Result<(), Memory>
    ensures { OnOk result (all.new ≡ all.old ++ more) }
{
    for value in more.into_vec() {
        all.push(value)?;
    }
    Ok(())
}
