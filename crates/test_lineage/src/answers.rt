// Values that no honest server gives: no value is refused, and none has rows that no comprehension
// at its path took.
use crate::told::{form_of, text_of};
use lineage::decode;
use nq_model::{Label, List, Memory, Text, Value};
use std::alloc::Global;
use std::process::Abort;
use test_support::org;

// An element of the departments, or of their employees.
fn element(alloc: Global, at: i64, row: i64, value: Value) -> Result<Value, Memory> {
    let mut fields = List::new(alloc);
    fields.push((Label::from_str(alloc, "at")?, Value::Int(at)))?;
    fields.push((Label::from_str(alloc, "r1")?, Value::Int(row)))?;
    fields.push((Label::from_str(alloc, "value")?, value))?;
    Ok(Value::Rec(fields))
}

fn bag(alloc: Global, elements: [Value; 2]) -> Result<Value, Memory> {
    let mut all = List::new(alloc);
    for element in elements {
        all.push(element)?;
    }
    Ok(Value::Bag(all))
}

fn word(alloc: Global, text: &str) -> Result<Value, Memory> {
    Ok(Value::Text(Text::from_str(alloc, text)?))
}

// The tag of the outer comprehension is 1, and that of the inner one 2.
#[test]
fn refuses_no_value(rt: HostRuntime) -> Result<(), Memory> {
    let alloc = rt.alloc();
    let schema = org(alloc)?;
    let form = form_of(
        alloc,
        &schema,
        "for (d <- table departments)
         [for (e <- table employees) where (e.dept == d.name) [e.name]]",
    )?;
    let inner = bag(
        alloc,
        [
            element(alloc, 1, 5, word(alloc, "outer")?)?,
            element(alloc, 2, -5, word(alloc, "own")?)?,
        ],
    )?;
    let none = Value::Bag(List::new(alloc));
    let value = bag(
        alloc,
        [element(alloc, 1, 7, inner)?, element(alloc, 2, 8, none)?],
    )?;
    let traced = decode(alloc, &form, &value)?;
    assert_eq!(&rt;
        text_of(alloc, traced)?.as_str(),
        "{{} @ [], {'outer' @ [], 'own' @ [employees -5]} @ [departments 7]}"
    );
    Ok(())
}
