// Whole runs that explain an SQL text or the text of a table, worked out by hand.
use crate::runs::{Engine, Wanted, check_run, held, put};
use nq_model::List;
use std::alloc::Global;
use std::process::Abort;
use std::test::Fail;

const SCHEMA: &str = "table people (id: int, name: text, vip: bool, key (id));\n";

const SQL: &[&str] = &["explain", "sql", "s", "q"];

const TABLE: &[&str] = &["explain", "table", "s", "people", "data"];

// The words, the text of SQL or of the table; and the status, the output and the note.
#[derive(Clone, Copy)]
struct Row {
    words: &'static [&'static str],
    text: &'static str,
    status: u8,
    out: &'static str,
    note: &'static str,
}

const ACCEPTED_SQL: Row = Row {
    words: SQL,
    text: r#"SELECT "p"."id" AS "i", "p"."name" AS "n" FROM "people" AS "p""#,
    status: 0,
    out: "\"i\": int, \"n\": text\n",
    note: "",
};

const ACCEPTED_TABLE: Row = Row {
    words: TABLE,
    text: "id,name,vip\n1,Ann,true\n",
    status: 0,
    out: "[(id: int, name: text, vip: bool)]\n",
    note: "",
};

const ROWS: [Row; 15] = [
    ACCEPTED_SQL,
    Row {
        text: r#"SELECT * FROM "people" AS "p""#,
        out: r#"q:1:8: Name the columns, as in SELECT "d"."name" AS "n". There is no SELECT *.
SELECT * FROM "people" AS "p"
       ^
found: *
expected: an expression or ROW_NUMBER
"#,
        ..ACCEPTED_SQL
    },
    Row {
        text: r#"SELECT 1 AS "n" FROM "people" AS "p" JOIN "people" AS "q""#,
        out: "\
q:1:38: There is no JOIN. List the sources behind FROM, and compare their columns in WHERE.
SELECT 1 AS \"n\" FROM \"people\" AS \"p\" JOIN \"people\" AS \"q\"
                                     ^
",
        ..ACCEPTED_SQL
    },
    Row {
        text: r#"SELECT "p"."nam" AS "n" FROM "people" AS "p""#,
        out: r#"q:1:8: The source has the column: is its name misspelt?
SELECT "p"."nam" AS "n" FROM "people" AS "p"
       ^
found: "id": int, "name": text, "vip": bool
rule: 4, kept by: SELECT "d"."name" AS "n" FROM "departments" AS "d"
"#,
        ..ACCEPTED_SQL
    },
    Row {
        text: r#"SELECT 1 AS "n" FROM "peple" AS "p""#,
        out: r#"q:1:22: A source of FROM is a table of the schema, or an earlier WITH query.
SELECT 1 AS "n" FROM "peple" AS "p"
                     ^
tables: people
nearest: people
"#,
        ..ACCEPTED_SQL
    },
    ACCEPTED_TABLE,
    Row {
        text: "id,nam,vip\n",
        out: "data/people.csv:1:4: The first line is not the names of the columns.
id,nam,vip
   ^
expected: id,name,vip
column: 2
found: nam
",
        ..ACCEPTED_TABLE
    },
    // A cell of row 2, behind a line that ends in two bytes.
    Row {
        text: "id,name,vip\r\n1,Ann,true\r\nx,Bo,f\r\n",
        out: "\
data/people.csv:3:1: This is no int: an int is an optional minus sign and digits, within 64 bits.
x,Bo,f
^
row: 2
column: id
cell: x
",
        ..ACCEPTED_TABLE
    },
    // A comma in quotes ends no cell.
    Row {
        text: "id,name,vip\n1,\"Ann, B\",yes\n",
        out: "data/people.csv:2:12: This is no truth value: write true, false, t or f.
1,\"Ann, B\",yes
           ^
row: 1
column: vip
cell: yes
",
        ..ACCEPTED_TABLE
    },
    Row {
        text: "id,name,vip\n1,A,t\n2,B,f\n1,C,t\n",
        out: "data/people.csv:4:1: An earlier row has the same key.
1,C,t
^
row: 3
earlier: 1, in line 2
key: id
",
        ..ACCEPTED_TABLE
    },
    // A table that the schema has not.
    Row {
        words: &["explain", "table", "s", "peple", "data"],
        out: "No table of the schema has this name.
found: peple
tables: people
nearest: people
",
        ..ACCEPTED_TABLE
    },
    // What is not there is not explained.
    Row {
        words: &["explain", "table", "s", "people", "nowhere"],
        status: 7,
        out: "",
        note: "nq: input failed: nowhere/people.csv\n",
        ..ACCEPTED_TABLE
    },
    Row {
        words: &["explain", "sql", "s", "nothing"],
        status: 7,
        out: "",
        note: "nq: input failed: nothing\n",
        ..ACCEPTED_SQL
    },
    Row {
        words: &["explain", "table", "s", "people"],
        status: 2,
        out: "",
        note: "nq: usage\n",
        ..ACCEPTED_TABLE
    },
    Row {
        words: &["explain", "tables", "s", "people", "data"],
        status: 2,
        out: "",
        note: "nq: usage\n",
        ..ACCEPTED_TABLE
    },
];

// Runs over the schema and the text, which is both that of SQL and that of the table.
fn check_row(rt: &impl Abort, alloc: Global, row: &Row) -> Result<(), Fail> {
    let mut files = List::new(alloc);
    put(alloc, &mut files, "s", SCHEMA.as_bytes())?;
    put(alloc, &mut files, "q", row.text.as_bytes())?;
    put(alloc, &mut files, "data/people.csv", row.text.as_bytes())?;
    let wanted = Wanted {
        words: row.words,
        room: 2000,
        status: row.status,
        out: row.out,
        note: row.note,
    };
    let inputs = held(alloc, files, &[])?;
    check_run(rt, alloc, Engine::Plain, inputs, &wanted)
}

#[test]
fn explains_sql_texts_and_tables(rt: HostRuntime) -> Result<(), Fail> {
    for row in &ROWS {
        check_row(&rt, rt.alloc(), row)?;
    }
    Ok(())
}
