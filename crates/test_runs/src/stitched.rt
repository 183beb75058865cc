// Whole runs that write the value of answers that were made elsewhere.
use crate::runs::{Engine, Wanted, check_run, held, put};
use nq_model::List;
use std::alloc::Global;
use std::process::Abort;
use std::test::Fail;

const SCHEMA: &str = "table departments (name: text);
table employees (dept: text, name: text, salary: int);
";

/// The query, and the texts of the answers to its two SQL texts; and the status, the output and the
/// note that are wanted.
#[derive(Clone, Copy)]
struct Row {
    words: &'static [&'static str],
    query: &'static str,
    first: &'static str,
    second: &'static str,
    status: u8,
    out: &'static str,
    note: &'static str,
}

/// The answers to a query over two departments of one name.
const LINKED: Row = Row {
    words: &["stitch", "schema", "q", "data"],
    query: "for (d <- table departments)
[(d = d.name, es = for (e <- table employees) where (e.dept == d.name) [e.name])]",
    first: "ot,on,c1,c2,c3\n0,1,Product,1,1\n0,1,Product,1,2\n",
    second: "ot,on,c1\n1,1,Alex\n1,2,Alex\n1,1,Bert\n1,2,Bert\n",
    status: 0,
    out: "{(d = 'Product', es = {'Alex', 'Bert'}), (d = 'Product', es = {'Alex', 'Bert'})}\n",
    note: "",
};

const REFUSED: Row = Row {
    status: 15,
    out: "",
    ..LINKED
};

const ROWS: [Row; 17] = [
    LINKED,
    Row {
        words: &["stitch", "json", "schema", "q", "data"],
        out: "[{\"d\":\"Product\",\"es\":[\"Alex\",\"Bert\"]},{\"d\":\"Product\",\"es\":[\"Alex\",\"Bert\"]}]\n",
        ..LINKED
    },
    Row {
        second: "ot,on,c1\n1,3,Alex\n1,2,Alex\n1,1,Bert\n1,2,Bert\n",
        note: "nq: answer 2 refused: Dangling row 1\n",
        ..REFUSED
    },
    Row {
        first: "ot,on,c1,c2,c3\n0,1,Product,1,1\n0,1,Product,1,1\n",
        note: "nq: answer 1 refused: Twice row 2 column 4 earlier 1\n",
        ..REFUSED
    },
    Row {
        first: "ot,on,c1\n0,1,Product,1,1\n0,1,Product,1,2\n",
        note: "nq: answer 1 refused: Header\n",
        ..REFUSED
    },
    // Any tags, any numbers and any order.
    Row {
        first: "ot,on,c1,c2,c3\n0,1,B,7,-3\n0,1,A,7,9\n",
        second: "ot,on,c1\n7,9,y\n7,-3,x\n7,9,y\n",
        out: "{(d = 'A', es = {'y', 'y'}), (d = 'B', es = {'x'})}\n",
        ..LINKED
    },
    Row {
        first: "ot,on,c1,c2,c3\n0,1,Product,1,1\n0,2,Product,1,2\n",
        note: "nq: answer 1 refused: Dangling row 2\n",
        ..REFUSED
    },
    // All texts are read before it is judged whether the answers are linked.
    Row {
        first: "ot,on,c1,c2,c3\n0,1,Product,1,1\n0,1,Product,1,1\n",
        second: "ot,on,c1\n1,1\n",
        note: "nq: answer 2 refused: Width row 1\n",
        ..REFUSED
    },
    // But each before the next is fetched.
    Row {
        first: "ot,on,c1,c2,c3\n0,1,Product,1\n",
        second: "",
        note: "nq: answer 1 refused: Width row 1\n",
        ..REFUSED
    },
    Row {
        second: "ot,on,c1\n1,1,Alex\n1,2,Alex\n1,1,Bert\n1,x,Bert\n",
        note: "nq: answer 2 refused: BadInt row 4 column 2\n",
        ..REFUSED
    },
    Row {
        query: "for (d <- table departments) [(n = d.name, t = d.name == 'Sales')]",
        first: "ot,on,c1,c2\n0,1,Sales,t\n0,1,Sales,yes\n",
        note: "nq: answer 1 refused: BadBool row 2 column 4\n",
        ..REFUSED
    },
    // A row that stands in no bag comes before a later one that gives a bag again.
    Row {
        first: "ot,on,c1,c2,c3\n0,1,Product,1,1\n0,2,Product,1,2\n0,1,Product,1,1\n",
        note: "nq: answer 1 refused: Dangling row 2\n",
        ..REFUSED
    },
    Row {
        first: "ot,on,c1,c2,c3\n0,1,Moon,4,4\n",
        second: "ot,on,c1\n",
        out: "{(d = 'Moon', es = {})}\n",
        ..LINKED
    },
    Row {
        query: "table departments",
        first: "ot,on,c1\r\n0,1,\"a, b\"\r\n0,1,a\r\n0,1,\"a, b\"\r\n",
        out: "{(name = 'a'), (name = 'a, b'), (name = 'a, b')}\n",
        ..LINKED
    },
    // The order of refusals is that of `show sql` before.
    Row {
        query: "table depts",
        status: 5,
        note: "nq: ill typed: rule 5 at 0\n",
        ..REFUSED
    },
    Row {
        words: &["stitch", "schema", "q", "elsewhere"],
        status: 7,
        note: "nq: input failed: elsewhere/1.csv\n",
        ..REFUSED
    },
    Row {
        words: &["stitch", "jso", "schema", "q", "data"],
        status: 2,
        note: "nq: usage\n",
        ..REFUSED
    },
];

fn check(rt: &impl Abort, alloc: Global, row: &Row) -> Result<(), Fail> {
    let mut files = List::new(alloc);
    put(alloc, &mut files, "schema", SCHEMA.as_bytes())?;
    put(alloc, &mut files, "q", row.query.as_bytes())?;
    put(alloc, &mut files, "data/1.csv", row.first.as_bytes())?;
    put(alloc, &mut files, "data/2.csv", row.second.as_bytes())?;
    let wanted = Wanted {
        words: row.words,
        room: 2000,
        status: row.status,
        out: row.out,
        note: row.note,
    };
    check_run(rt, alloc, Engine::Fast, held(alloc, files, &[])?, &wanted)
}

#[test]
fn stitches_answers(rt: HostRuntime) -> Result<(), Fail> {
    let alloc = rt.alloc();
    for row in &ROWS {
        check(&rt, alloc, row)?;
    }
    Ok(())
}
