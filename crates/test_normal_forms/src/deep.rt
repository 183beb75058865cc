// Queries whose normal forms are deep.
ghost use Rattle.nq_model.specs.Tables.{IsProperSchema};

use normalise::normalise;
use nq_model::{Memory, Schema};
use std::alloc::Global;
use std::process::Abort;
use test_support::{org, plain};

// Marks, one in another, in a bag over `x`. Each has two sides round the inner one, and the bag has two, round the
// marks and what is marked. The first `x` is `first`.
struct Marks {
    first: &'static str,
    bag: (&'static str, &'static str),
    mark: (&'static str, &'static str),
    marked: &'static str,
    // How many marks the form of a query has at most.
    most: u64,
}

const MARKS: [Marks; 6] = [
    // A comprehension, 1,998 minuses and a leaf are 2,000 deep. So are choices and records.
    Marks {
        first: "1",
        bag: ("[", "]"),
        mark: ("-", ""),
        marked: "x",
        most: 1998,
    },
    Marks {
        first: "1",
        bag: ("[", "]"),
        mark: ("if true then ", " else 2"),
        marked: "x",
        most: 1998,
    },
    Marks {
        first: "1",
        bag: ("[", "]"),
        mark: ("(a = ", ")"),
        marked: "x",
        most: 1998,
    },
    // A bag and its comprehension are two, and so are a test and its condition.
    Marks {
        first: "1",
        bag: ("[", "]"),
        mark: ("[", "]"),
        marked: "x",
        most: 999,
    },
    Marks {
        first: "true",
        bag: ("[", "]"),
        mark: ("empty(where (", ") [1])"),
        marked: "x",
        most: 999,
    },
    // 1,999 conditions are joined over a leaf.
    Marks {
        first: "1",
        bag: ("", ""),
        mark: ("where (true) ", ""),
        marked: "[x]",
        most: 1999,
    },
];

// A bag with so many marks.
fn put_bag(text: &mut String, marks: &Marks, times: u64) -> Result<(), Memory> {
    text.push_str(marks.bag.0)?;
    for _ in 0..times {
        text.push_str(marks.mark.0)?;
    }
    text.push_str(marks.marked)?;
    for _ in 0..times {
        text.push_str(marks.mark.1)?;
    }
    text.push_str(marks.bag.1)?;
    Ok(())
}

// `for (x <- [FIRST]) for (x <- BAG) .. BAG`, with 60 marks in each bag but the last, and so many in all. The last bag
// stands between the two sides of `around`.
fn nested(
    alloc: Global,
    marks: &Marks,
    times: u64,
    around: (&str, &str),
) -> Result<String, Memory> {
    let first = marks.first;
    let mut text = format!(in alloc; "for (x <- [{first}]) ")?;
    for _ in 0..times / 60 {
        text.push_str("for (x <- ")?;
        put_bag(&mut text, marks, 60)?;
        text.push_str(") ")?;
    }
    text.push_str(around.0)?;
    put_bag(&mut text, marks, times % 60)?;
    text.push_str(around.1)?;
    Ok(text)
}

// Whether memory does not want.
fn is_answered(
    alloc: Global,
    schema: &Schema,
    marks: &Marks,
    times: u64,
    around: (&str, &str),
) -> Result<bool, Memory>
    requires { IsProperSchema schema.now }
{
    let text = nested(alloc, marks, times, around)?;
    let term = plain(alloc, schema, text.as_str())?;
    Ok(normalise(alloc, schema, &term).is_ok())
}

// The last bag as it is.
const BARE: (&str, &str) = ("", "");

// The last bag in a choice below an emptiness test.
const TESTED: (&str, &str) = ("[empty(if true then ", " else [2])]");

#[test]
fn deeper_is_want_of_memory(rt: HostRuntime) -> Result<(), Memory> {
    let alloc = rt.alloc();
    let schema = org(alloc)?;
    // 60 nested `for`, each with 60 minuses.
    assert!(&rt; !is_answered(alloc, &schema, &MARKS[0], 3600, BARE)?);
    for marks in &MARKS {
        let most = marks.most;
        let more = most.saturating_add(1);
        assert!(&rt; is_answered(alloc, &schema, marks, most, BARE)?);
        assert!(&rt; !is_answered(alloc, &schema, marks, more, BARE)?);
    }
    // Below an emptiness test elements are not built, in a choice neither.
    let minuses = &MARKS[0];
    let more = minuses.most.saturating_add(1);
    assert!(&rt; is_answered(alloc, &schema, minuses, more, TESTED)?);
    Ok(())
}
