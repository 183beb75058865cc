// Values.
ghost use Rattle.std.specs.Prelude.{◌≡◌, ◌↔◌, map, count_by, IfOk, IsTrue};
ghost use Rattle.nq_model.specs.Values.{nested, fields_view, fields_of, elements_of, Same, same, same_fields, same_counts};

use crate::list::List;
use crate::memory::Memory;
use crate::text::{Label, Text};
use std::alloc::Global;

/// A value. The labels of a record differ and stand in byte order; the elements of a bag stand in
/// any order, each as often as it is in the bag.
#[derive(Drop)]
pub enum Value {
    Int(i64),
    Bool(bool),
    Text(Text),
    Rec(List<(Label, Value)>),
    Bag(List<Value>),
}

impl Value {
    /// Whether the two are the same nested multiset: equal but for the order of the elements in
    /// each bag.
    ///
    /// This is the plain program, which counts: it compares each element of a bag with each other
    /// one, at every depth. The fast way is to put both values into canonical form and to compare
    /// these.
    #[cycle(same)]
    #[tactic(auto, using(crate::proofs::Trees::nested_record, crate::proofs::Trees::nested_bag))]
    pub fn same(&self, other: &Value) -> bool
        ensures counted { result ≡ same (nested self.now) (nested other.now) }
        ensures same { IsTrue result ↔ Same (nested self.now) (nested other.now) }
    {
        match (self, other) {
            (Value::Int(left), Value::Int(right)) => *left == *right,
            (Value::Bool(left), Value::Bool(right)) => *left == *right,
            (Value::Text(left), Value::Text(right)) => left.as_str() == right.as_str(),
            (Value::Rec(left), Value::Rec(right)) => same_fields(left.as_slice(), right.as_slice()),
            (Value::Bag(left), Value::Bag(right)) => left.len() == right.len()
                && same_counts(left.as_slice(), right.as_slice()),
            _ => false,
        }
    }

    /// A copy of the value.
    #[cycle(copy)]
    #[tactic(auto, using(crate::proofs::Trees::nested_record, crate::proofs::Trees::nested_bag))]
    pub fn copy(&self, alloc: Global) -> Result<Value, Memory>
        ensures { IfOk result (λ copy. nested copy ≡ nested self.now) }
    {
        match self {
            Value::Int(number) => Ok(Value::Int(*number)),
            Value::Bool(truth) => Ok(Value::Bool(*truth)),
            Value::Text(text) => Ok(Value::Text(text.copy(alloc)?)),
            Value::Rec(fields) => Ok(Value::Rec(copy_fields(alloc, fields.as_slice())?)),
            Value::Bag(elements) => Ok(Value::Bag(copy_elements(alloc, elements.as_slice())?)),
        }
    }
}

#[cycle(same)]
fn same_fields(left: &[(Label, Value)], right: &[(Label, Value)]) -> bool
    ensures { result ≡ same_fields (fields_of (map (λ f. (f.0, nested f.1)) left.now))
        (fields_of (map (λ f. (f.0, nested f.1)) right.now)) }
{
    if left.len() != right.len() {
        return false;
    }
    for i in 0..left.len() {
        if left[i].0.as_str() != right[i].0.as_str() || !left[i].1.same(&right[i].1) {
            return false;
        }
    }
    true
}

// Whether each of the first elements is the same as as many of the first as of the second.
#[cycle(same)]
fn same_counts(left: &[Value], right: &[Value]) -> bool
    ensures { result ≡ same_counts (elements_of (map nested left.now)) (map nested left.now)
        (map nested right.now) }
{
    for value in left {
        if count_same(value, left) != count_same(value, right) {
            return false;
        }
    }
    true
}

// How many elements are the same as the value.
#[cycle(same)]
fn count_same(value: &Value, among: &[Value]) -> usize
    ensures { result ≡ count_by (same (nested value.now)) (map nested among.now) }
{
    let mut count = 0;
    for other in among {
        if value.same(other) {
            count += 1;
        }
    }
    count
}

#[cycle(copy)]
fn copy_fields(alloc: Global, fields: &[(Label, Value)]) -> Result<List<(Label, Value)>, Memory>
    ensures { IfOk result (λ copies. fields_view copies ≡ fields_view fields.now) }
{
    let mut copies = List::with_capacity(alloc, fields.len())?;
    for field in fields {
        copies.push((field.0.copy(alloc)?, field.1.copy(alloc)?))?;
    }
    Ok(copies)
}

#[cycle(copy)]
fn copy_elements(alloc: Global, elements: &[Value]) -> Result<List<Value>, Memory>
    ensures { IfOk result (λ copies. map nested copies ≡ map nested elements.now) }
{
    let mut copies = List::with_capacity(alloc, elements.len())?;
    for element in elements {
        copies.push(element.copy(alloc)?)?;
    }
    Ok(copies)
}
