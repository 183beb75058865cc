// Texts of answers, each with the canonical text of their value, or with the first fault.
use crate::stitched::{stitched, text_of};
use foreign_answers::{links, read_answer};
use nq_model::{List, Ty};
use reference_stitching::are_answers;
use shred_types::{columns_at, paths};
use sql_profile::Answer;
use std::alloc::Global;
use std::process::Abort;
use std::test::Fail;
use stitcher::FlatNumbers;
use test_answers::{Shape, bag_type};

// Texts of the answers of a bag of such elements, and what comes of them.
struct Case {
    element: &'static Shape,
    texts: &'static [&'static str],
    told: &'static str,
}

const STAFF: Shape = Shape::Rec(&[("d", Shape::Text), ("es", Shape::Bag(&Shape::Text))]);

const TWO_BAGS: Shape = Shape::Rec(&[
    ("a", Shape::Bag(&Shape::Int)),
    ("b", Shape::Bag(&Shape::Int)),
]);

const MEMBER: Shape = Shape::Rec(&[("m", Shape::Text), ("ts", Shape::Bag(&Shape::Text))]);

const TEAM: Shape = Shape::Rec(&[("es", Shape::Bag(&MEMBER)), ("n", Shape::Text)]);

const FLAT: Shape = Shape::Rec(&[("f", Shape::Bool), ("t", Shape::Text)]);

const DEPARTMENTS: &str = "ot,on,c1,c2,c3\n0,1,Product,1,1\n0,1,Product,1,2\n";

const CASES: [Case; 19] = [
    Case {
        element: &STAFF,
        texts: &[
            DEPARTMENTS,
            "ot,on,c1\n1,1,Alex\n1,2,Alex\n1,1,Bert\n1,2,Bert\n",
        ],
        told: "{(d = 'Product', es = {'Alex', 'Bert'}), (d = 'Product', es = {'Alex', 'Bert'})}\n",
    },
    Case {
        element: &STAFF,
        texts: &[
            DEPARTMENTS,
            "ot,on,c1\n1,3,Alex\n1,2,Alex\n1,1,Bert\n1,2,Bert\n",
        ],
        told: "Dangling { text: 2, row: 1 }",
    },
    Case {
        element: &STAFF,
        texts: &[
            "ot,on,c1,c2,c3\n0,1,Product,1,1\n0,1,Product,1,1\n",
            "ot,on,c1\n1,1,Alex\n",
        ],
        told: "Twice { text: 1, row: 2, column: 4, earlier: 1 }",
    },
    Case {
        element: &STAFF,
        texts: &["ot,on,c1\n0,1,Product,1,1\n", "ot,on,c1\n1,1,Alex\n"],
        told: "answer 1: Header",
    },
    // Any tags and numbers, in any order.
    Case {
        element: &STAFF,
        texts: &[
            "ot,on,c1,c2,c3\n0,1,B,7,-3\n0,1,A,7,9\n",
            "ot,on,c1\n7,9,y\n7,-3,x\n7,9,y\n",
        ],
        told: "{(d = 'A', es = {'y', 'y'}), (d = 'B', es = {'x'})}\n",
    },
    Case {
        element: &STAFF,
        texts: &[
            "ot,on,c1,c2,c3\n0,1,A,1,1\n0,2,B,1,2\n",
            "ot,on,c1\n1,1,Alex\n",
        ],
        told: "Dangling { text: 1, row: 2 }",
    },
    // All texts are read before any link is judged.
    Case {
        element: &STAFF,
        texts: &["ot,on,c1,c2,c3\n0,2,A,1,1\n", "ot,on,c1\n1,1\n"],
        told: "answer 2: Width { row: 1 }",
    },
    Case {
        element: &STAFF,
        texts: &[
            "ot,on,c1,c2,c3\n0,1,A,1,1\n0,1,B,1,2\n0,1,C,1,3\n0,x,D,1,4\n",
            "ot,on,c1\n",
        ],
        told: "answer 1: BadInt { row: 4, column: 2 }",
    },
    Case {
        element: &TWO_BAGS,
        texts: &[
            "ot,on,c1,c2,c3,c4\n0,1,1,1,2,1\n0,1,1,2,2,1\n",
            "ot,on,c1\n",
            "ot,on,c1\n",
        ],
        told: "Twice { text: 1, row: 2, column: 5, earlier: 1 }",
    },
    // One index for two inner bags is no fault, but it names each bag only at its own path.
    Case {
        element: &TWO_BAGS,
        texts: &[
            "ot,on,c1,c2,c3,c4\n0,1,1,1,1,1\n",
            "ot,on,c1\n1,1,5\n",
            "ot,on,c1\n1,1,6\n",
        ],
        told: "{(a = {5}, b = {6})}\n",
    },
    Case {
        element: &TWO_BAGS,
        texts: &[
            "ot,on,c1,c2,c3,c4\n0,1,1,1,2,1\n",
            "ot,on,c1\n2,1,5\n",
            "ot,on,c1\n",
        ],
        told: "Dangling { text: 2, row: 1 }",
    },
    Case {
        element: &STAFF,
        texts: &[
            "ot,on,c1,c2,c3\n0,1,A,1,1\n1,1,B,1,2\n0,1,C,1,1\n",
            "ot,on,c1\n",
        ],
        told: "Dangling { text: 1, row: 2 }",
    },
    // Rows count in the whole answer, whatever bags they stand in.
    Case {
        element: &TEAM,
        texts: &[
            "ot,on,c1,c2,c3\n0,1,1,1,X\n0,1,1,2,Y\n",
            "ot,on,c1,c2,c3\n1,1,E,2,1\n1,1,F,2,2\n1,2,G,2,2\n",
            "ot,on,c1\n",
        ],
        told: "Twice { text: 2, row: 3, column: 4, earlier: 2 }",
    },
    Case {
        element: &STAFF,
        texts: &["ot,on,c1,c2,c3\n0,1,Moon,1,1\n", "ot,on,c1\n"],
        told: "{(d = 'Moon', es = {})}\n",
    },
    Case {
        element: &FLAT,
        texts: &["ot,on,c1,c2\n0,1,t,Product\n0,1,true,Product\n"],
        told: "{(f = true, t = 'Product'), (f = true, t = 'Product')}\n",
    },
    Case {
        element: &FLAT,
        texts: &["ot,on,c1,c2\n0,1,yes,Product\n"],
        told: "answer 1: BadBool { row: 1, column: 3 }",
    },
    Case {
        element: &TEAM,
        texts: &[
            "ot,on,c1,c2,c3\n0,1,1,1,X\n",
            "ot,on,c1,c2,c3\n1,1,E,2,1\n1,1,F,2,2\n",
            "ot,on,c1\n2,2,t\n2,1,u\n",
        ],
        told: "{(es = {(m = 'E', ts = {'u'}), (m = 'F', ts = {'t'})}, n = 'X')}\n",
    },
    // A byte order mark, carriage returns and quotes, as in any table text.
    Case {
        element: &STAFF,
        texts: &[
            "\u{feff}ot,on,c1,c2,c3\r\n0,1,\"A, B\",1,1\r\n",
            "\"ot\",on,c1\r\n1,1,\"x\"\r\n",
        ],
        told: "{(d = 'A, B', es = {'x'})}\n",
    },
    Case {
        element: &Shape::Int,
        texts: &["ot,on,c1\n0,1,9223372036854775808\n"],
        told: "answer 1: BadInt { row: 1, column: 3 }",
    },
];

// The answers that the texts spell, or the first fault of a text.
fn read_all(alloc: Global, of: &Ty, texts: &[&str]) -> Result<Result<List<Answer>, String>, Fail> {
    let mut answers = List::new(alloc);
    let paths = paths(alloc, of)?;
    for (at, text) in texts.iter().enumerate() {
        let Some(path) = paths.get(at) else {
            return Ok(Ok(answers));
        };
        let columns = columns_at(alloc, of, path)?;
        if columns.len() < 2 {
            return Ok(Ok(answers));
        }
        match read_answer(alloc, columns.as_slice(), text.as_bytes()) {
            Ok(answer) => answers.push(answer)?,
            Err(fault) => return Ok(Err(format!(in alloc; "answer {}: {fault:?}", at + 1)?)),
        }
    }
    Ok(Ok(answers))
}

// What comes of texts of answers.
fn told(alloc: Global, of: &Ty, texts: &[&str]) -> Result<String, Fail> {
    let answers = match read_all(alloc, of, texts)? {
        Ok(answers) => answers,
        Err(fault) => return Ok(fault),
    };
    let scheme = FlatNumbers::new(alloc, of)?;
    if !are_answers(alloc, &scheme, of, answers.as_slice())? {
        return Ok(format!(in alloc; "no answers")?);
    }
    let linked = match of {
        Ty::Bag(_) => links(alloc, of, &answers),
        _ => Ok(()),
    };
    if let Err(fault) = linked {
        return Ok(format!(in alloc; "{fault:?}")?);
    }
    let text = text_of(alloc, stitched(alloc, of, &answers)?)?;
    Ok(String::from_utf8_lossy(alloc, text.as_slice())?)
}

#[test]
fn reads_and_links_answers(rt: HostRuntime) -> Result<(), Fail> {
    let alloc = rt.alloc();
    for case in &CASES {
        let of = bag_type(alloc, case.element)?;
        let text = told(alloc, &of, case.texts)?;
        assert_eq!(rt; text.as_str(), case.told);
    }
    Ok(())
}
