// Worked answers.
use crate::described::{Listed, Shape};
use nq_model::{CellRef, Memory};
use rows::Rows;
use sql_profile::Answer;
use std::alloc::Global;

/// Answers of a bag of such elements, and the canonical text of their value.
pub struct Case {
    pub element: &'static Shape,
    pub answers: &'static [Listed],
    pub text: &'static str,
}

const PEOPLE: Shape = Shape::Rec(&[("name", Shape::Text), ("tasks", Shape::Bag(&Shape::Text))]);

const ORGANISATION: Shape = Shape::Rec(&[
    ("department", Shape::Text),
    ("employees", Shape::Bag(&PEOPLE)),
]);

const NAMED: Shape = Shape::Rec(&[("b", Shape::Bag(&Shape::Text)), ("n", Shape::Text)]);

const STAFF: Shape = Shape::Rec(&[("d", Shape::Text), ("es", Shape::Bag(&Shape::Text))]);

const BAGS: Shape = Shape::Bag(&Shape::Bag(&Shape::Int));

const FOUR: &str =
    "{(department = 'Product', employees = {(name = 'Alex', tasks = {'build'}), (name = 'Bert', tasks = {'build'})}), (department = 'Quality', employees = {}), (department = 'Research', employees = {}), (department = 'Sales', employees = {(name = 'Erik', tasks = {'call', 'enthuse'})})}\n";

const TWICE: &str =
    "{(d = 'Product', es = {'Alex', 'Bert'}), (d = 'Product', es = {'Alex', 'Bert'})}\n";

const TWO_TASKS: &str =
    "{(department = 'Product', employees = {(name = 'Alex', tasks = {'build'}), (name = 'Bert', tasks = {'call'})}), (department = 'Product', employees = {(name = 'Alex', tasks = {'build'}), (name = 'Bert', tasks = {'call'})})}\n";

/// Answers of each form: departments without employees, parents with one number or one index, ties that
/// are numbered in two ways, rows that no bag holds, elements without fields, and bags of bags.
pub const CASES: [Case; 12] = [
    Case {
        element: &ORGANISATION,
        answers: &[
            &[
                "0 1 Product 1 1",
                "0 1 Quality 1 2",
                "0 1 Research 1 3",
                "0 1 Sales 1 4",
            ],
            &["1 1 Alex 2 1", "1 1 Bert 2 2", "1 4 Erik 2 3"],
            &["2 1 build", "2 2 build", "2 3 call", "2 3 enthuse"],
        ],
        text: FOUR,
    },
    // The same in another order and with other numbers.
    Case {
        element: &ORGANISATION,
        answers: &[
            &[
                "0 1 Sales 1 1",
                "0 1 Research 1 2",
                "0 1 Quality 1 3",
                "0 1 Product 1 4",
            ],
            &["1 4 Bert 2 1", "1 1 Erik 2 2", "1 4 Alex 2 3"],
            &["2 2 enthuse", "2 3 build", "2 2 call", "2 1 build"],
        ],
        text: FOUR,
    },
    // Parents with one number, told apart by their tags.
    Case {
        element: &NAMED,
        answers: &[&["0 1 1 1 a", "0 1 3 1 b"], &["1 1 Erik"]],
        text: "{(b = {}, n = 'b'), (b = {'Erik'}, n = 'a')}\n",
    },
    Case {
        element: &NAMED,
        answers: &[&["0 1 3 2 b", "0 1 1 2 a"], &["1 2 Erik"]],
        text: "{(b = {}, n = 'b'), (b = {'Erik'}, n = 'a')}\n",
    },
    // Ties, numbered in two ways.
    Case {
        element: &STAFF,
        answers: &[
            &["0 1 Product 1 1", "0 1 Product 1 2"],
            &["1 1 Alex", "1 2 Alex", "1 1 Bert", "1 2 Bert"],
        ],
        text: TWICE,
    },
    Case {
        element: &STAFF,
        answers: &[
            &["0 1 Product 1 2", "0 1 Product 1 1"],
            &["1 2 Bert", "1 2 Alex", "1 1 Bert", "1 1 Alex"],
        ],
        text: TWICE,
    },
    Case {
        element: &ORGANISATION,
        answers: &[
            &["0 1 Product 1 1", "0 1 Product 1 2"],
            &[
                "1 1 Alex 2 1",
                "1 2 Alex 2 2",
                "1 1 Bert 2 3",
                "1 2 Bert 2 4",
            ],
            &["2 1 build", "2 2 build", "2 3 call", "2 4 call"],
        ],
        text: TWO_TASKS,
    },
    Case {
        element: &ORGANISATION,
        answers: &[
            &["0 1 Product 1 2", "0 1 Product 1 1"],
            &[
                "1 2 Bert 2 4",
                "1 1 Bert 2 3",
                "1 2 Alex 2 1",
                "1 1 Alex 2 2",
            ],
            &["2 4 call", "2 3 call", "2 2 build", "2 1 build"],
        ],
        text: TWO_TASKS,
    },
    // Parents that share an index, and a row under an index that none has.
    Case {
        element: &STAFF,
        answers: &[&["0 1 P 1 1", "0 1 Q 1 1"], &["1 1 Alex", "1 3 Bert"]],
        text: "{(d = 'P', es = {'Alex'}), (d = 'Q', es = {'Alex'})}\n",
    },
    // A row that does not stand in the whole value.
    Case {
        element: &Shape::Rec(&[("name", Shape::Text)]),
        answers: &[&["0 1 Moon", "9 9 Sun"]],
        text: "{(name = 'Moon')}\n",
    },
    Case {
        element: &Shape::Rec(&[]),
        answers: &[&["0 1", "0 1", "1 1", "0 1"]],
        text: "{(), (), ()}\n",
    },
    Case {
        element: &BAGS,
        answers: &[
            &["0 1 1 2", "0 1 1 1"],
            &["1 1 2 1", "1 1 2 2", "1 2 2 3"],
            &["2 3 8", "2 1 7", "2 3 8"],
        ],
        text: "{{{}, {7}}, {{8, 8}}}\n",
    },
];

/// A child for each of so many parents, with the parent's number for its value.
pub fn children(alloc: Global, count: i64) -> Result<Answer, Memory> {
    let mut rows = Rows::new(alloc);
    for number in 1..=count {
        let number = CellRef::Int(number);
        rows.push_lent(&[CellRef::Int(1), number, number])?;
    }
    Ok(Answer { rows })
}
