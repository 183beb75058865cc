// Answers, each with the canonical text of the value that they are stitched to.
use canon::{sort_deep, write};
use nq_model::{CellRef, List, Memory, Ty, Value};
use reference_stitching::{are_answers, stitch_by_search};
use rows::Rows;
use sql_profile::Answer;
use std::alloc::Global;
use std::process::Abort;
use std::test::Fail;
use stitcher::{FlatNumbers, stitch};
use test_answers::{CASES, Case, Shape, answers_of, bag_type, children};

const NUMBERED: Shape = Shape::Rec(&[("b", Shape::Bag(&Shape::Int))]);

/// The value that the answers are stitched to by groups, if they are answers of the type.
pub fn stitched(alloc: Global, of: &Ty, answers: &List<Answer>) -> Result<Option<Value>, Memory> {
    let scheme = FlatNumbers::new(alloc, of)?;
    if !are_answers(alloc, &scheme, of, answers.as_slice())? {
        return Ok(None);
    }
    match of {
        Ty::Bag(_) => Ok(Some(stitch(alloc, &scheme, of, answers)?)),
        _ => Ok(None),
    }
}

// The same by the plain program, which goes through all rows for each bag.
fn searched(alloc: Global, of: &Ty, answers: &List<Answer>) -> Result<Option<Value>, Memory> {
    let scheme = FlatNumbers::new(alloc, of)?;
    let listed = answers.as_slice();
    if !are_answers(alloc, &scheme, of, listed)? {
        return Ok(None);
    }
    match of {
        Ty::Bag(_) => Ok(Some(stitch_by_search(alloc, &scheme, of, listed)?)),
        _ => Ok(None),
    }
}

/// The canonical text of the value, if there is one.
pub fn text_of(alloc: Global, value: Option<Value>) -> Result<List<u8>, Memory> {
    match value {
        Some(value) => write(alloc, &sort_deep(alloc, value)?),
        None => Ok(List::new(alloc)),
    }
}

// The text of the value with the elements of each bag in the order of its list.
fn text_in_order(alloc: Global, value: &Option<Value>) -> Result<List<u8>, Memory> {
    match value {
        Some(value) => write(alloc, value),
        None => Ok(List::new(alloc)),
    }
}

// Compares the value with the text, and its lists with those of the plain program.
fn check(rt: &impl Abort, alloc: Global, case: &Case) -> Result<(), Memory> {
    let of = bag_type(alloc, case.element)?;
    let answers = answers_of(alloc, case.answers)?;
    let value = stitched(alloc, &of, &answers)?;
    let by_groups = text_in_order(alloc, &value)?;
    let by_search = text_in_order(alloc, &searched(alloc, &of, &answers)?)?;
    assert!(rt; by_groups.as_slice() == by_search.as_slice());
    let text = text_of(alloc, value)?;
    assert!(rt; text.as_slice() == case.text.as_bytes());
    Ok(())
}

#[test]
fn gives_the_nested_value(rt: HostRuntime) -> Result<(), Memory> {
    for case in &CASES {
        check(&rt, rt.alloc(), case)?;
    }
    Ok(())
}

// Parents that each give their own number for their bag.
fn parents(alloc: Global, count: i64) -> Result<Answer, Memory> {
    let mut rows = Rows::new(alloc);
    for number in 1..=count {
        let one = CellRef::Int(1);
        rows.push_lent(&[CellRef::Int(0), one, one, CellRef::Int(number)])?;
    }
    Ok(Answer { rows })
}

// Whether the value is the record of one bag that holds one number.
fn is_one(value: &Value, number: usize) -> bool {
    let Value::Rec(fields) = value else {
        return false;
    };
    let [(label, Value::Bag(bag))] = fields.as_slice() else {
        return false;
    };
    let [Value::Int(one)] = bag.as_slice() else {
        return false;
    };
    label.as_str() == "b" && usize::try_from(*one).is_ok_and(|one| one == number)
}

// How many elements there are, if each is the record of its number from 1.
fn in_order(value: &Value) -> usize {
    let Value::Bag(elements) = value else {
        return 0;
    };
    for at in 0..elements.len() {
        if !is_one(&elements.as_slice()[at], at + 1) {
            return 0;
        }
    }
    elements.len()
}

#[test]
fn many_parents_with_one_child_each(rt: HostRuntime) -> Result<(), Fail> {
    let alloc = rt.alloc();
    let of = bag_type(alloc, &NUMBERED)?;
    let mut answers = List::new(alloc);
    answers.push(parents(alloc, 400_000)?)?;
    answers.push(children(alloc, 400_000)?)?;
    let value = stitched(alloc, &of, &answers)?;
    assert_eq!(rt; value.map_or(0, |value| in_order(&value)), 400_000);
    Ok(())
}
