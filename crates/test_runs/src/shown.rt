// Whole runs that show SQL texts for other programs, and scripts for databases, worked out by hand.
use crate::queries::{CHECK, Row, TYPES, USAGE, run_row};
use crate::runs::{Engine, Wanted, check_run, held, padded, put};
use nq_model::List;
use std::alloc::Global;
use std::process::Abort;
use std::test::Fail;

/// A query whose SQL texts are written as JSON: each department with the names of its employees.
const JSON: Row = Row {
    words: &["show", "json", "org", "q"],
    query: "for (d <- table departments) [(d = d.name, es = for (e <- table employees) where (e.dept == d.name) [e.name])]",
    out: r#"{"texts":[{"columns":[{"name":"ot","type":"int"},{"name":"on","type":"int"},{"name":"c1","type":"text"},{"name":"c2","type":"int"},{"name":"c3","type":"int"}],"parent":null,"path":"/","sql":"SELECT 0 AS \"ot\", 1 AS \"on\", \"x1\".\"name\" AS \"c1\", 1 AS \"c2\", ROW_NUMBER() OVER (ORDER BY \"x1\".\"name\") AS \"c3\" FROM \"departments\" AS \"x1\""},{"columns":[{"name":"ot","type":"int"},{"name":"on","type":"int"},{"name":"c1","type":"text"}],"parent":{"column":4,"text":1},"path":"/[].es","sql":"WITH \"q.1\" AS (SELECT \"x1\".\"name\" AS \"x1.name\", ROW_NUMBER() OVER (ORDER BY \"x1\".\"name\") AS \"n\" FROM \"departments\" AS \"x1\") SELECT 1 AS \"ot\", \"z\".\"n\" AS \"on\", \"x2\".\"name\" AS \"c1\" FROM \"q.1\" AS \"z\", \"employees\" AS \"x2\" WHERE (\"x2\".\"dept\" = \"z\".\"x1.name\")"}],"type":{"bag":{"record":{"d":"text","es":{"bag":"text"}}}}}
"#,
    ..CHECK
};

const ROWS: [Row; 5] = [
    JSON,
    Row {
        words: &["show", "json", "org", "q"],
        query: "1 + 1",
        note: "nq: ill typed: rule 23 at 2\n",
        ..TYPES
    },
    // The script that asks PostgreSQL, of a folder that is only a word.
    Row {
        words: &["show", "script", "postgres", "org", "q", "answers"],
        query: "table departments",
        out: r#"\set ON_ERROR_STOP on
\encoding UTF8
BEGIN ISOLATION LEVEL REPEATABLE READ READ ONLY;
COPY (SELECT 0 AS "ot", 1 AS "on", "x1"."name" AS "c1" FROM "departments" AS "x1") TO STDOUT WITH (FORMAT csv, HEADER true) \g './answers/1.csv'
COMMIT;
"#,
        ..CHECK
    },
    Row {
        words: &["show", "script", "mysql", "org", "q", "answers"],
        ..USAGE
    },
    // Of five words the second is `json`.
    Row {
        words: &["show", "script", "sqlite", "org", "q"],
        ..USAGE
    },
];

/// The words and the text of the schema; and the status, the output and the note that are wanted.
#[derive(Clone, Copy)]
struct Load {
    words: &'static [&'static str],
    schema: &'static str,
    status: u8,
    out: &'static str,
    note: &'static str,
}

const POSTGRES: Load = Load {
    words: &["show", "load", "postgres", "org"],
    schema: "table t (a: int, b: text, c: bool, key (a));",
    status: 0,
    out: r#"\set ON_ERROR_STOP on
\encoding UTF8
BEGIN;
CREATE TABLE "t" (
  "a" bigint NOT NULL,
  "b" text COLLATE "C" NOT NULL,
  "c" boolean NOT NULL,
  PRIMARY KEY ("a")
);
\copy "t" ("a", "b", "c") FROM 't.csv' WITH (FORMAT csv, HEADER true, FORCE_NOT_NULL ("b"))
COMMIT;
"#,
    note: "",
};

const LOADS: [Load; 4] = [
    POSTGRES,
    Load {
        words: &["show", "load", "sqlite", "org"],
        out: r#".bail on
BEGIN;
CREATE TABLE "t" (
  "a" INT NOT NULL CHECK (typeof("a") = 'integer'),
  "b" TEXT NOT NULL CHECK (typeof("b") = 'text'),
  "c" INT NOT NULL CHECK ("c" IN (0, 1)),
  PRIMARY KEY ("a")
);
CREATE TABLE "cells of csv" ("a" TEXT, "b" TEXT, "c" TEXT);
.import --csv --skip 1 t.csv "cells of csv"
INSERT INTO "t" ("a", "b", "c") SELECT "a", "b", CASE "c" WHEN 'true' THEN 1 WHEN 't' THEN 1 WHEN 'false' THEN 0 WHEN 'f' THEN 0 END FROM "cells of csv";
DROP TABLE "cells of csv";
COMMIT;
"#,
        ..POSTGRES
    },
    Load {
        schema: "table t (a: int)",
        status: 3,
        out: "",
        note: "nq: schema refused: Syntax at 16\n",
        ..POSTGRES
    },
    Load {
        words: &["show", "load", "mysql", "org"],
        status: 2,
        out: "",
        note: "nq: usage\n",
        ..POSTGRES
    },
];

fn check_load(rt: &impl Abort, alloc: Global, load: &Load) -> Result<(), Fail> {
    let mut files = List::new(alloc);
    put(alloc, &mut files, "org", load.schema.as_bytes())?;
    let wanted = Wanted {
        words: load.words,
        room: 2000,
        status: load.status,
        out: load.out,
        note: load.note,
    };
    check_run(rt, alloc, Engine::Plain, held(alloc, files, &[])?, &wanted)
}

#[test]
fn shows_texts_for_other_programs(rt: HostRuntime) -> Result<(), Fail> {
    let alloc = rt.alloc();
    for row in &ROWS {
        run_row(&rt, alloc, row, padded(alloc, 0, row.query)?)?;
    }
    Ok(())
}

#[test]
fn shows_how_databases_load_tables(rt: HostRuntime) -> Result<(), Fail> {
    let alloc = rt.alloc();
    for load in &LOADS {
        check_load(&rt, alloc, load)?;
    }
    Ok(())
}
