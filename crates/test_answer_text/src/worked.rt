// Answers, each with the text of their value as it is worked out by hand, which both ways give.
use crate::ways::{by_value, straight};
use nq_model::{CellRef, List, Memory, Ty, boxed};
use rows::Rows;
use sql_profile::Answer;
use std::alloc::Global;
use std::process::Abort;
use std::test::Fail;
use test_answers::{Case, Shape, answers_of, bag_type};

const FLAT: Shape = Shape::Rec(&[("a", Shape::Int), ("b", Shape::Bool), ("c", Shape::Text)]);

const STAFF: Shape = Shape::Rec(&[("d", Shape::Text), ("es", Shape::Bag(&Shape::Text))]);

const BAG_FIRST: Shape = Shape::Rec(&[("b", Shape::Bag(&Shape::Int)), ("n", Shape::Int)]);

const TWO_BAGS: Shape = Shape::Rec(&[
    ("a", Shape::Bag(&Shape::Int)),
    ("b", Shape::Bag(&Shape::Int)),
]);

const CASES: [Case; 8] = [
    Case {
        element: &FLAT,
        answers: &[&["0 1 -5 true it's"]],
        text: "{(a = -5, b = true, c = 'it''s')}\n",
    },
    Case {
        element: &FLAT,
        answers: &[&["0 1 10 true b", "0 1 10 false c", "0 1 9 true ''"]],
        text: "{(a = 9, b = true, c = ''''''), (a = 10, b = false, c = 'c'), (a = 10, b = true, c = 'b')}\n",
    },
    Case {
        element: &Shape::Int,
        answers: &[&["0 1 7", "0 1 -7", "0 1 7"]],
        text: "{-7, 7, 7}\n",
    },
    Case {
        element: &Shape::Text,
        answers: &[&[]],
        text: "{}\n",
    },
    // Two equal elements by way of two bags, and an empty bag.
    Case {
        element: &STAFF,
        answers: &[
            &["0 1 P 1 2", "0 1 Q 1 3", "0 1 P 1 1"],
            &["1 2 Bert", "1 1 Alex", "1 2 Alex", "1 1 Bert"],
        ],
        text: "{(d = 'P', es = {'Alex', 'Bert'}), (d = 'P', es = {'Alex', 'Bert'}), (d = 'Q', es = {})}\n",
    },
    // Parents that share a bag, by tag and number, and rows in bags that none has.
    Case {
        element: &STAFF,
        answers: &[
            &["0 1 P -1 -2", "0 2 R -1 -2", "0 1 Q -1 -2"],
            &["-1 -2 x", "-2 -1 y", "-1 -1 z"],
        ],
        text: "{(d = 'P', es = {'x'}), (d = 'Q', es = {'x'})}\n",
    },
    // The bags decide before the cells behind them, and a bag stands before those that go on.
    Case {
        element: &BAG_FIRST,
        answers: &[
            &["0 1 1 1 4", "0 1 1 2 3", "0 1 1 3 2", "0 1 1 1 1"],
            &["1 1 5", "1 2 5", "1 1 6"],
        ],
        text: "{(b = {}, n = 2), (b = {5}, n = 3), (b = {5, 6}, n = 1), (b = {5, 6}, n = 4)}\n",
    },
    // One index for two inner bags names each at its own path.
    Case {
        element: &TWO_BAGS,
        answers: &[&["0 1 1 1 1 1"], &["1 1 5", "1 1 4"], &["1 1 6"]],
        text: "{(a = {4, 5}, b = {6})}\n",
    },
];

// Compares the text of the answers, by both ways, with this one.
fn check(
    rt: &impl Abort,
    alloc: Global,
    of: &Ty,
    answers: List<Answer>,
    text: &str,
) -> Result<(), Fail> {
    assert_eq!(rt; by_value(alloc, of, &answers)?.as_str(), text);
    assert_eq!(rt; straight(alloc, of, answers)?.as_str(), text);
    Ok(())
}

#[test]
fn worked_answers(rt: HostRuntime) -> Result<(), Fail> {
    let alloc = rt.alloc();
    for case in &CASES {
        let of = bag_type(alloc, case.element)?;
        let answers = answers_of(alloc, case.answers)?;
        check(&rt, alloc, &of, answers, case.text)?;
    }
    Ok(())
}

const DEPTH: usize = 60;

// A bag of a bag of a bag, and so on, of integers.
fn deep_type(alloc: Global) -> Result<Ty, Memory> {
    let mut of = Ty::Int;
    for _ in 0..DEPTH {
        of = Ty::Bag(boxed(alloc, of)?);
    }
    Ok(of)
}

fn one_row(alloc: Global, cells: &[i64]) -> Result<Answer, Memory> {
    let mut lent = Vec::with_capacity(alloc, cells.len())?;
    for cell in cells {
        lent.push(CellRef::Int(*cell))?;
    }
    let mut rows = Rows::new(alloc);
    rows.push_lent(lent.as_slice())?;
    Ok(Answer { rows })
}

// One row at each depth, which gives the bag of the next row, and the last an integer.
fn deep_answers(alloc: Global) -> Result<List<Answer>, Memory> {
    let mut answers = List::new(alloc);
    answers.push(one_row(alloc, &[0, 1, 3, 4])?)?;
    for _ in 2..DEPTH {
        answers.push(one_row(alloc, &[3, 4, 3, 4])?)?;
    }
    answers.push(one_row(alloc, &[3, 4, 7])?)?;
    Ok(answers)
}

// As many braces on both sides of the integer as bags.
fn deep_text(alloc: Global) -> Result<String, Memory> {
    let mut text = String::new(alloc);
    for _ in 0..DEPTH {
        text.push_str("{")?;
    }
    text.push_str("7")?;
    for _ in 0..DEPTH {
        text.push_str("}")?;
    }
    text.push_str("\n")?;
    Ok(text)
}

#[test]
fn deep_answers_are_written(rt: HostRuntime) -> Result<(), Fail> {
    let alloc = rt.alloc();
    let of = deep_type(alloc)?;
    let answers = deep_answers(alloc)?;
    let text = deep_text(alloc)?;
    check(&rt, alloc, &of, answers, text.as_str())
}
