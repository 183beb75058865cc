// Answers, each with the canonical text of what they stitch to.
use answer_text::answer_text;
use nq_model::{CellRef, List, Memory, Ty, boxed};
use rows::Rows;
use sql_profile::Answer;
use std::alloc::Global;
use std::process::Abort;
use std::test::Fail;
use test_answers::{CASES, Case, Shape, answers_of, children, type_of};

const STAFF: Shape = Shape::Rec(&[("d", Shape::Text), ("es", Shape::Bag(&Shape::Text))]);

const NUMBERED: Shape = Shape::Rec(&[("b", Shape::Bag(&Shape::Int)), ("n", Shape::Int)]);

const MEMBER: Shape = Shape::Rec(&[("m", Shape::Text), ("ns", Shape::Bag(&Shape::Int))]);

const TEAM: Shape = Shape::Rec(&[("es", Shape::Bag(&MEMBER)), ("n", Shape::Text)]);

const MORE_CASES: [Case; 6] = [
    // Bags stand before what their elements are told apart by, and tie.
    Case {
        element: &TEAM,
        answers: &[
            &["0 1 1 1 b", "0 1 1 2 a", "0 1 1 3 a"],
            &[
                "1 1 x 2 1",
                "1 2 x 2 2",
                "1 3 x 2 3",
                "1 3 x 2 4",
                "1 2 x 2 5",
            ],
            &["2 1 3", "2 2 2", "2 5 1", "2 3 2", "2 4 1"],
        ],
        text: "{(es = {(m = 'x', ns = {1}), (m = 'x', ns = {2})}, n = 'a'), (es = {(m = 'x', ns = {1}), (m = 'x', ns = {2})}, n = 'a'), (es = {(m = 'x', ns = {3})}, n = 'b')}\n",
    },
    // Tags and numbers below zero, and a bag that two rows give.
    Case {
        element: &STAFF,
        answers: &[
            &["0 1 b -1 -9", "0 1 a -1 -9", "0 -1 c -1 -9"],
            &["-1 -9 y", "1 9 z", "-1 -9 x"],
        ],
        text: "{(d = 'a', es = {'x', 'y'}), (d = 'b', es = {'x', 'y'})}\n",
    },
    // Integers by value, and quotes doubled.
    Case {
        element: &Shape::Rec(&[("n", Shape::Int), ("t", Shape::Text)]),
        answers: &[&["0 1 10 it's", "0 1 9 ''", "0 1 -3 o"]],
        text: "{(n = -3, t = 'o'), (n = 9, t = ''''''), (n = 10, t = 'it''s')}\n",
    },
    // Records in records are compared field by field.
    Case {
        element: &Shape::Rec(&[
            ("p", Shape::Rec(&[("x", Shape::Int), ("y", Shape::Int)])),
            ("q", Shape::Int),
        ]),
        answers: &[&["0 1 1 2 1", "0 1 1 1 2", "0 1 0 9 3"]],
        text: "{(p = (x = 0, y = 9), q = 3), (p = (x = 1, y = 1), q = 2), (p = (x = 1, y = 2), q = 1)}\n",
    },
    // No rows, and no answer for the inner bags.
    Case {
        element: &STAFF,
        answers: &[&[]],
        text: "{}\n",
    },
    Case {
        element: &STAFF,
        answers: &[&["0 1 P 1 1"]],
        text: "{(d = 'P', es = {})}\n",
    },
];

// Compares the text of the answers with that of the case.
fn check(rt: &impl Abort, alloc: Global, case: &Case) -> Result<(), Fail> {
    let of = Ty::Bag(boxed(alloc, type_of(alloc, case.element)?)?);
    let text = answer_text(alloc, &of, answers_of(alloc, case.answers)?)?;
    let told = String::from_utf8_lossy(alloc, text.as_slice())?;
    assert_eq!(rt; told.as_str(), case.text);
    Ok(())
}

#[test]
fn gives_the_canonical_text(rt: HostRuntime) -> Result<(), Fail> {
    for case in CASES.iter().chain(MORE_CASES.iter()) {
        check(&rt, rt.alloc(), case)?;
    }
    Ok(())
}

const DEPTH: usize = 200;

// Bags in bags, one fewer than so many, and a number in the innermost.
fn deep_element(alloc: Global) -> Result<Ty, Memory> {
    let mut of = Ty::Int;
    for _ in 1..DEPTH {
        of = Ty::Bag(boxed(alloc, of)?);
    }
    Ok(of)
}

// One row for each of the bags.
fn deep_answers(alloc: Global) -> Result<List<Answer>, Memory> {
    let mut answers = List::new(alloc);
    let mut tag = 0;
    for path in 1..=DEPTH {
        let mut rows = Rows::new(alloc);
        let one = CellRef::Int(1);
        if path < DEPTH {
            rows.push_lent(&[CellRef::Int(tag), one, CellRef::Int(path as i64), one])?;
        } else {
            rows.push_lent(&[CellRef::Int(tag), one, CellRef::Int(7)])?;
        }
        answers.push(Answer { rows })?;
        tag = path as i64;
    }
    Ok(answers)
}

#[test]
fn goes_down_two_hundred_bags(rt: HostRuntime) -> Result<(), Fail> {
    let alloc = rt.alloc();
    let of = Ty::Bag(boxed(alloc, deep_element(alloc)?)?);
    let text = answer_text(alloc, &of, deep_answers(alloc)?)?;
    let mut told = String::new(alloc);
    for _ in 0..DEPTH {
        told.push_str("{")?;
    }
    told.push_str("7")?;
    for _ in 0..DEPTH {
        told.push_str("}")?;
    }
    told.push_str("\n")?;
    assert!(rt; text.as_slice() == told.as_bytes());
    Ok(())
}

// Parents that each give their own number for their bag, from the last on.
fn parents(alloc: Global, count: i64) -> Result<Answer, Memory> {
    let mut rows = Rows::new(alloc);
    for before in 0..count {
        let number = CellRef::Int(count.wrapping_sub(before));
        let one = CellRef::Int(1);
        rows.push_lent(&[CellRef::Int(0), one, one, number, number])?;
    }
    Ok(Answer { rows })
}

// The text of each parent with its child, in the order of the numbers.
fn told_of(alloc: Global, count: i64) -> Result<String, Fail> {
    let mut told = format!(in alloc; "{{(b = {{1}}, n = 1)")?;
    for number in 2..=count {
        write!(&mut told, ", (b = {{{number}}}, n = {number})")?;
    }
    told.push_str("}\n")?;
    Ok(told)
}

#[test]
fn many_parents_with_one_child_each(rt: HostRuntime) -> Result<(), Fail> {
    let alloc = rt.alloc();
    let of = Ty::Bag(boxed(alloc, type_of(alloc, &NUMBERED)?)?);
    let mut answers = List::new(alloc);
    answers.push(parents(alloc, 100_000)?)?;
    answers.push(children(alloc, 100_000)?)?;
    let text = answer_text(alloc, &of, answers)?;
    let told = told_of(alloc, 100_000)?;
    assert!(rt; text.as_slice() == told.as_bytes());
    Ok(())
}
