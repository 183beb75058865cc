// Both ways give one text, whatever the answers.
use crate::made::{Manner, Naming, answers_of};
use crate::ways::{by_value, straight};
use std::alloc::Global;
use std::process::Abort;
use std::test::Fail;
use test_answers::{Shape, bag_type};

const FLAT: Shape = Shape::Rec(&[("a", Shape::Int), ("b", Shape::Bool), ("c", Shape::Text)]);

const PEOPLE: Shape = Shape::Rec(&[("name", Shape::Text), ("tasks", Shape::Bag(&Shape::Text))]);

// The bag stands before the cells, so that the first columns do not put rows in order.
const BAG_FIRST: Shape = Shape::Rec(&[("a", Shape::Bag(&PEOPLE)), ("z", Shape::Int)]);

const SIDE_BY_SIDE: Shape = Shape::Rec(&[
    ("a", Shape::Bag(&Shape::Int)),
    ("b", Shape::Bag(&Shape::Int)),
]);

const LEAF: Shape = Shape::Rec(&[("u", Shape::Bool), ("v", Shape::Bag(&Shape::Bool))]);

const MIDDLE: Shape = Shape::Rec(&[("n", Shape::Int), ("xs", Shape::Bag(&LEAF))]);

const THREE_LEVELS: Shape = Shape::Rec(&[("m", Shape::Text), ("ys", Shape::Bag(&MIDDLE))]);

const INNER: Shape = Shape::Rec(&[("p", Shape::Bag(&Shape::Text)), ("q", Shape::Bool)]);

const RECORDS: Shape = Shape::Rec(&[
    ("a", Shape::Rec(&[("b", INNER), ("c", Shape::Bag(&INNER))])),
    ("d", Shape::Rec(&[])),
    ("e", Shape::Rec(&[("f", Shape::Int)])),
]);

const EMPTY: Shape = Shape::Rec(&[]);

// Rows in the bag have no column but those of their index, and the record has none.
const NO_COLUMN: Shape = Shape::Rec(&[
    ("a", Shape::Bag(&EMPTY)),
    ("b", Shape::Rec(&[("c", EMPTY)])),
]);

const SHAPES: [Shape; 13] = [
    Shape::Int,
    Shape::Bool,
    Shape::Text,
    Shape::Bag(&Shape::Int),
    Shape::Bag(&Shape::Bag(&Shape::Text)),
    FLAT,
    PEOPLE,
    BAG_FIRST,
    SIDE_BY_SIDE,
    THREE_LEVELS,
    RECORDS,
    EMPTY,
    NO_COLUMN,
];

const MANNERS: [Manner; 5] = [
    Manner {
        under: 6,
        naming: Naming::ByRow,
        numbers: &[-1, 0, 1],
        words: &["", "'", "a'b"],
    },
    Manner {
        under: 9,
        naming: Naming::ByChance,
        numbers: &[0, 1],
        words: &["a"],
    },
    Manner {
        under: 9,
        naming: Naming::ByChance,
        numbers: &[i64::MIN, 1, i64::MAX],
        words: &["ab", "a", "''", "\u{e9}"],
    },
    Manner {
        under: 30,
        naming: Naming::ByChance,
        numbers: &[-2, 0, 1, 1000],
        words: &["", "b", "B"],
    },
    Manner {
        under: 80,
        naming: Naming::ByRow,
        numbers: &[-10, 9, 10, i64::MIN, i64::MAX],
        words: &["it's", "its", "it"],
    },
];

// Whether the value of the answers that a seed makes has any element, where both ways agree.
fn has_elements(
    rt: &impl Abort,
    alloc: Global,
    shape: &Shape,
    seed: u64,
    manner: &Manner,
) -> Result<bool, Fail> {
    let of = bag_type(alloc, shape)?;
    let answers = answers_of(alloc, &of, seed, manner)?;
    let wanted = by_value(alloc, &of, &answers)?;
    let text = straight(alloc, &of, answers)?;
    assert_eq!(rt; text.as_str(), wanted.as_str(), "seed {seed}");
    assert!(rt; wanted.len() > 2);
    Ok(wanted.as_str() != "{}\n")
}

// How many of the values of a few seeds have elements.
fn full(rt: &impl Abort, alloc: Global, shape: &Shape, manner: &Manner) -> Result<u64, Fail> {
    let mut full: u64 = 0;
    for seed in 0..8 {
        if has_elements(rt, alloc, shape, seed, manner)? {
            full = full.saturating_add(1);
        }
    }
    Ok(full)
}

#[test]
fn made_answers(rt: HostRuntime) -> Result<(), Fail> {
    let alloc = rt.alloc();
    for shape in &SHAPES {
        for manner in &MANNERS {
            assert!(&rt; full(&rt, alloc, shape, manner)? > 3);
        }
    }
    Ok(())
}
