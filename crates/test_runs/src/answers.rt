// Whole runs that write the rows of SQL texts.
use crate::nested::{CONTACTS, ORG, WHOLE};
use crate::runs::{Engine, Wanted, check_run, held, padded, put};
use nq_edge::HeldInputs;
use nq_model::List;
use std::alloc::Global;
use std::test::Fail;

// A schema and an SQL text; and the status, the output and the note that are wanted.
#[derive(Clone, Copy)]
struct Row {
    schema: &'static str,
    sql: &'static str,
    status: u8,
    out: &'static str,
    note: &'static str,
}

const EARLY: Row = Row {
    schema: ORG,
    sql: "SELECT \"x\".\"name\" AS \"n\" FROM \"departments\" AS \"x\" WHERE (\"x\".\"name\" < 'R')",
    status: 0,
    out: "rows 2\n'Product'\n'Quality'\n",
    note: "",
};

const REFUSED: Row = Row {
    status: 12,
    out: "",
    ..EARLY
};

const ROWS: [Row; 38] = [
    EARLY,
    Row {
        sql: "SELECT \"d\".\"name\" AS \"n\" FROM \"departments\" AS \"d\" WHERE (NOT EXISTS (SELECT 1 AS \"one\" FROM \"employees\" AS \"e\" WHERE (\"e\".\"dept\" = \"d\".\"name\")))",
        out: "rows 2\n'Quality'\n'Research'\n",
        ..EARLY
    },
    // A WITH query has one list of rows, whatever numbers it deals.
    Row {
        schema: "table t (a: int);",
        sql: "WITH \"w\" AS (SELECT \"x\".\"a\" AS \"a\", ROW_NUMBER() OVER () AS \"n\" FROM \"t\" AS \"x\") SELECT \"u\".\"a\" AS \"a\", \"v\".\"a\" AS \"b\" FROM \"w\" AS \"u\", \"w\" AS \"v\" WHERE (\"u\".\"n\" = \"v\".\"n\")",
        out: "rows 2\n5|5\n6|6\n",
        ..EARLY
    },
    // FALSE stands before TRUE, and then the numbers decide.
    Row {
        sql: "SELECT (\"e\".\"dept\" = 'Product') AS \"p\", (1000 - \"e\".\"salary\") AS \"s\", \"e\".\"name\" AS \"n\" FROM \"employees\" AS \"e\"",
        out: "rows 3\nfalse|-1999000|'Erik'\ntrue|-19000|'Alex'\ntrue|100|'Bert'\n",
        ..EARLY
    },
    Row {
        sql: "SELECT 'it''s' AS \"n\" UNION ALL SELECT 'it' AS \"n\" UNION ALL SELECT 'it' AS \"n\"",
        out: "rows 3\n'it'\n'it'\n'it''s'\n",
        ..EARLY
    },
    Row {
        sql: "SELECT 1 AS \"n\" WHERE FALSE",
        out: "rows 0\n",
        ..EARLY
    },
    Row {
        sql: "SELECT 1",
        note: "nq: sql refused: Unexpected at 8\n",
        ..REFUSED
    },
    Row {
        sql: "SELECT \"y\".\"name\" AS \"n\"",
        note: "nq: sql refused: rule 3 at 7\n",
        ..REFUSED
    },
    // The SQL text is judged before the texts of the tables.
    Row {
        schema: "table tasks (a: int);",
        sql: "SELECT \"x\".\"a\" AS \"n\" FROM \"t\" AS \"x\"",
        note: "nq: sql refused: rule 1 at 27\n",
        ..REFUSED
    },
    Row {
        schema: "table tasks (a: int);",
        sql: "SELECT \"x\".\"a\" AS \"n\" FROM \"tasks\" AS \"x\"",
        status: 6,
        note: "nq: table tasks refused: Header\n",
        ..REFUSED
    },
    // Scalar queries: counts and sums.
    Row {
        sql: "SELECT (SELECT COUNT(*)) AS \"n\"",
        out: "rows 1\n1\n",
        ..EARLY
    },
    Row {
        sql: "SELECT (SELECT COUNT(*) WHERE FALSE) AS \"n\"",
        out: "rows 1\n0\n",
        ..EARLY
    },
    Row {
        sql: "SELECT (SELECT COUNT(*) FROM \"employees\" AS \"e\", \"tasks\" AS \"t\") AS \"n\"",
        out: "rows 1\n12\n",
        ..EARLY
    },
    Row {
        sql: "SELECT \"d\".\"name\" AS \"d\", (SELECT COALESCE(SUM(\"e\".\"salary\"), 0) FROM \"employees\" AS \"e\" WHERE (\"e\".\"dept\" = \"d\".\"name\")) AS \"s\" FROM \"departments\" AS \"d\"",
        out: "rows 4\n'Product'|20900\n'Quality'|0\n'Research'|0\n'Sales'|2000000\n",
        ..EARLY
    },
    Row {
        sql: "SELECT (SELECT COALESCE(SUM(9223372036854775807 + \"e\".\"salary\" * 0), 0) FROM \"employees\" AS \"e\") AS \"n\"",
        out: "rows 1\n9223372036854775805\n",
        ..EARLY
    },
    Row {
        sql: "SELECT ((SELECT COUNT(*))) AS \"n\"",
        out: "rows 1\n1\n",
        ..EARLY
    },
    Row {
        sql: "SELECT (select count(*)) + 1 AS \"n\"",
        out: "rows 1\n2\n",
        ..EARLY
    },
    Row {
        sql: "SELECT \"d\".\"name\" AS \"n\" FROM \"departments\" AS \"d\" WHERE (SELECT COUNT(*) FROM \"employees\" AS \"e\" WHERE \"e\".\"dept\" = \"d\".\"name\") > 1",
        out: "rows 1\n'Product'\n",
        ..EARLY
    },
    Row {
        sql: "SELECT \"d\".\"name\" AS \"d\", ROW_NUMBER() OVER (ORDER BY (SELECT COUNT(*) FROM \"employees\" AS \"e\" WHERE \"e\".\"dept\" = \"d\".\"name\"), \"d\".\"name\") AS \"n\" FROM \"departments\" AS \"d\"",
        out: "rows 4\n'Product'|4\n'Quality'|1\n'Research'|2\n'Sales'|3\n",
        ..EARLY
    },
    Row {
        sql: "SELECT CASE WHEN (SELECT COUNT(*) FROM \"tasks\" AS \"t\") > 3 THEN 'many' ELSE 'few' END AS \"n\"",
        out: "rows 1\n'many'\n",
        ..EARLY
    },
    Row {
        sql: "SELECT \"d\".\"name\" AS \"n\" FROM \"departments\" AS \"d\" WHERE NOT EXISTS (SELECT 1 AS \"one\" FROM \"employees\" AS \"e\" WHERE \"e\".\"dept\" = \"d\".\"name\" AND (SELECT COUNT(*) FROM \"tasks\" AS \"t\" WHERE \"t\".\"employee\" = \"e\".\"name\") < 2)",
        out: "rows 3\n'Quality'\n'Research'\n'Sales'\n",
        ..EARLY
    },
    Row {
        sql: "WITH \"w\" AS (SELECT (SELECT COUNT(*) FROM \"tasks\" AS \"t\" WHERE \"t\".\"employee\" = \"e\".\"name\") AS \"n\" FROM \"employees\" AS \"e\") SELECT (SELECT COALESCE(SUM(\"w\".\"n\"), 0) FROM \"w\" AS \"w\") AS \"s\"",
        out: "rows 1\n4\n",
        ..EARLY
    },
    Row {
        sql: "SELECT \"d\".\"name\" AS \"n\" FROM \"departments\" AS \"d\" WHERE (SELECT COUNT(*) FROM \"employees\" AS \"d\" WHERE \"d\".\"salary\" > 0) = 3",
        out: "rows 4\n'Product'\n'Quality'\n'Research'\n'Sales'\n",
        ..EARLY
    },
    Row {
        sql: "SELECT (SELECT COALESCE(SUM(1), 00)) AS \"n\"",
        note: "nq: sql refused: Unexpected at 32\n",
        ..REFUSED
    },
    Row {
        sql: "SELECT (SELECT COALESCE(SUM(1), 1)) AS \"n\"",
        note: "nq: sql refused: Unexpected at 32\n",
        ..REFUSED
    },
    Row {
        sql: "SELECT (SELECT COUNT(1)) AS \"n\"",
        note: "nq: sql refused: Unexpected at 21\n",
        ..REFUSED
    },
    Row {
        sql: "SELECT (SELECT SUM(1)) AS \"n\"",
        note: "nq: sql refused: Unexpected at 15\n",
        ..REFUSED
    },
    Row {
        sql: "SELECT COUNT(*) AS \"n\"",
        note: "nq: sql refused: Unexpected at 7\n",
        ..REFUSED
    },
    Row {
        sql: "SELECT (SELECT 1 AS \"n\") AS \"m\"",
        note: "nq: sql refused: Unexpected at 15\n",
        ..REFUSED
    },
    Row {
        sql: "SELECT (SELECT COUNT(*) UNION ALL SELECT COUNT(*)) AS \"n\"",
        note: "nq: sql refused: Unexpected at 24\n",
        ..REFUSED
    },
    Row {
        sql: "SELECT (SELECT COALESCE(SUM(1 + ), 0)) AS \"n\"",
        note: "nq: sql refused: Unexpected at 32\n",
        ..REFUSED
    },
    Row {
        sql: "SELECT (SELECT COALESCE(SUM(TRUE), 0)) AS \"n\"",
        note: "nq: sql refused: rule 10 at 28\n",
        ..REFUSED
    },
    Row {
        sql: "SELECT (SELECT COALESCE(SUM('a'), 0)) AS \"n\"",
        note: "nq: sql refused: rule 10 at 28\n",
        ..REFUSED
    },
    Row {
        sql: "SELECT (SELECT COUNT(*) FROM \"nobody\" AS \"x\") AS \"n\"",
        note: "nq: sql refused: rule 1 at 29\n",
        ..REFUSED
    },
    Row {
        sql: "SELECT (SELECT COUNT(*) FROM \"departments\" AS \"d\", \"departments\" AS \"d\") AS \"n\"",
        note: "nq: sql refused: rule 2 at 51\n",
        ..REFUSED
    },
    Row {
        sql: "SELECT (SELECT COUNT(*) FROM \"tasks\" AS \"t\" WHERE 1) AS \"n\"",
        note: "nq: sql refused: rule 6 at 50\n",
        ..REFUSED
    },
    Row {
        sql: "SELECT (SELECT COALESCE(SUM(\"y\".\"salary\"), 0) FROM \"employees\" AS \"e\") AS \"n\"",
        note: "nq: sql refused: rule 3 at 28\n",
        ..REFUSED
    },
    Row {
        sql: "SELECT (SELECT COALESCE(SUM(TRUE), 0) WHERE 1) AS \"n\"",
        note: "nq: sql refused: rule 6 at 44\n",
        ..REFUSED
    },
];

// The inputs of a row, with so many spaces before its SQL text.
fn inputs_of(alloc: Global, row: &Row, blanks: usize) -> Result<HeldInputs, Fail> {
    let sql = padded(alloc, blanks, row.sql)?;
    let mut files = List::new(alloc);
    put(alloc, &mut files, "org", row.schema.as_bytes())?;
    put(alloc, &mut files, "s", sql.as_slice())?;
    put(
        alloc,
        &mut files,
        "data/departments.csv",
        WHOLE.departments.as_bytes(),
    )?;
    put(
        alloc,
        &mut files,
        "data/employees.csv",
        WHOLE.employees.as_bytes(),
    )?;
    put(alloc, &mut files, "data/tasks.csv", WHOLE.tasks.as_bytes())?;
    put(alloc, &mut files, "data/contacts.csv", CONTACTS.as_bytes())?;
    put(alloc, &mut files, "data/t.csv", b"a\n5\n6\n")?;
    held(alloc, files, &[])
}

// What is wanted of a run of a row.
fn wanted(row: &Row) -> Wanted {
    Wanted {
        words: &["answer", "org", "s", "data"],
        room: 200,
        status: row.status,
        out: row.out,
        note: row.note,
    }
}

#[test]
fn writes_the_rows_of_each_text(rt: HostRuntime) -> Result<(), Fail> {
    let alloc = rt.alloc();
    for row in &ROWS {
        for engine in [Engine::Plain, Engine::Crooked, Engine::Fast] {
            check_run(&rt, alloc, engine, inputs_of(alloc, row, 0)?, &wanted(row))?;
        }
    }
    let long = Row {
        status: 10,
        note: "nq: input too long: s over 1048576\n",
        ..REFUSED
    };
    let inputs = inputs_of(alloc, &long, 1_048_576)?;
    check_run(&rt, alloc, Engine::Plain, inputs, &wanted(&long))
}
