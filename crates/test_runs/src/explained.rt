// Whole runs that explain a query or its schema, worked out by hand.
use crate::queries::{CHECK, NESTED, Row, TYPES, USAGE, run_row};
use crate::runs::{Engine, Wanted, check_run, held, padded, put};
use nq_model::List;
use std::alloc::Global;
use std::process::Abort;
use std::test::Fail;

const WORDS: &[&str] = &["explain", "org", "q"];

/// A query that is accepted, whose type is written.
const EXPLAIN: Row = Row {
    words: WORDS,
    out: "[int]\n",
    ..CHECK
};

const ROWS: [Row; 11] = [
    EXPLAIN,
    Row {
        query: NESTED,
        out: "[(department: text, employees: [(name: text, tasks: [text])])]\n",
        ..EXPLAIN
    },
    // A fault of the text, with what could have stood there.
    Row {
        query: "for (e <- table employees)\nwhere (e.salary > 1000) [e.name];\n",
        out: "q:2:33: A query ends without a semicolon. Only a let has one.
where (e.salary > 1000) [e.name];
                                ^
found: a semicolon
expected: an operator, (, a dot or the end of the text
",
        ..EXPLAIN
    },
    // A name that no variable has, with the tables.
    Row {
        query: "for (e <- employee) [e]",
        out: "q:1:11: No variable has this name. If you mean a table, write table before it.
for (e <- employee) [e]
          ^
tables: departments, employees, tasks and contacts
",
        ..EXPLAIN
    },
    // A table that the schema has not.
    Row {
        query: "table employee",
        out: "\
q:1:1: The schema must have the table: is the name misspelt, or the schema another one?
table employee
^
tables: departments, employees, tasks and contacts
nearest: employees
",
        ..EXPLAIN
    },
    // A typing rule that is broken, with a query that keeps it.
    Row {
        query: "for (e <- table employees) e.name",
        out: "q:1:1: A for goes over a bag, and its body is a bag: put the element into [..].
for (e <- table employees) e.name
^
found: [(dept: text, name: text, salary: int)] and text
rule: 20, kept by: for (e <- table employees) [e.name]
",
        ..EXPLAIN
    },
    // What fails is none of what is explained.
    Row {
        failing: &[1],
        note: "nq: input failed: org\n",
        words: WORDS,
        status: 7,
        ..TYPES
    },
    Row {
        failing: &[2],
        note: "nq: input failed: q\n",
        words: WORDS,
        status: 7,
        ..TYPES
    },
    Row {
        room: 3,
        status: 8,
        out: "[in",
        note: "nq: output failed\n",
        ..EXPLAIN
    },
    Row {
        words: &["explain", "org"],
        ..USAGE
    },
    Row {
        words: &["explain", "org", "q", "data"],
        ..USAGE
    },
];

#[test]
fn explains_queries(rt: HostRuntime) -> Result<(), Fail> {
    let alloc = rt.alloc();
    for row in &ROWS {
        run_row(&rt, alloc, row, padded(alloc, 0, row.query)?)?;
    }
    Ok(())
}

#[test]
fn a_long_query_is_not_explained(rt: HostRuntime) -> Result<(), Fail> {
    let alloc = rt.alloc();
    let long = Row {
        status: 10,
        out: "",
        note: "nq: input too long: q over 1048576\n",
        ..EXPLAIN
    };
    run_row(&rt, alloc, &long, padded(alloc, 1_048_574, "[1]")?)
}

// Of a line of a mebibyte, the last 100 columns are shown.
#[test]
fn a_long_line_is_cut(rt: HostRuntime) -> Result<(), Fail> {
    let alloc = rt.alloc();
    let cut = Row {
        out: "\
q:1:1048575: No query goes on like this.
                                                                                               [1] x
                                                                                                   ^
found: x
expected: an operator, (, a dot or the end of the text
",
        ..EXPLAIN
    };
    run_row(&rt, alloc, &cut, padded(alloc, 1_048_570, "[1] x")?)
}

// A schema with a fault is explained before its query is read.
#[test]
fn explains_schemas(rt: HostRuntime) -> Result<(), Fail> {
    let alloc = rt.alloc();
    let mut files = List::new(alloc);
    put(alloc, &mut files, "org", b"table t (a: int, a: text);\n")?;
    let wanted = Wanted {
        words: WORDS,
        room: 2000,
        status: 0,
        out: "\
org:1:18: An earlier column of this table has this name. Each column needs a name of its own.
table t (a: int, a: text);
                 ^
",
        note: "",
    };
    let inputs = held(alloc, files, &[])?;
    check_run(&rt, alloc, Engine::Plain, inputs, &wanted)
}
