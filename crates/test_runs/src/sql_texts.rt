// Whole runs that show the SQL texts of queries, which are worked out by hand.
use crate::queries::{CHECK, NESTED, Row, inputs_of, run_row};
use crate::runs::{padded, written};
use std::process::Abort;
use std::test::Fail;

/// A query whose SQL texts are written.
pub const SQL: Row = Row {
    words: &["show", "sql", "org", "q"],
    ..CHECK
};

const TEXTS: [Row; 10] = [
    Row {
        query: NESTED,
        out: r#"-- / 136
SELECT 0 AS "ot", 1 AS "on", "x1"."name" AS "c1", 1 AS "c2", ROW_NUMBER() OVER (ORDER BY "x1"."name") AS "c3" FROM "departments" AS "x1"
;
-- /[].employees 357
WITH "q.1" AS (SELECT "x1"."name" AS "x1.name", ROW_NUMBER() OVER (ORDER BY "x1"."name") AS "n" FROM "departments" AS "x1") SELECT 1 AS "ot", "z"."n" AS "on", "x2"."name" AS "c1", 2 AS "c2", ROW_NUMBER() OVER (ORDER BY "z"."x1.name", "x2"."dept", "x2"."name", "x2"."salary") AS "c3" FROM "q.1" AS "z", "employees" AS "x2" WHERE ("x2"."dept" = "z"."x1.name")
;
-- /[].employees[].tasks 431
WITH "q.1" AS (SELECT "x1"."name" AS "x1.name", "x2"."dept" AS "x2.dept", "x2"."name" AS "x2.name", "x2"."salary" AS "x2.salary", ROW_NUMBER() OVER (ORDER BY "x1"."name", "x2"."dept", "x2"."name", "x2"."salary") AS "n" FROM "departments" AS "x1", "employees" AS "x2" WHERE ("x2"."dept" = "x1"."name")) SELECT 2 AS "ot", "z"."n" AS "on", "x3"."task" AS "c1" FROM "q.1" AS "z", "tasks" AS "x3" WHERE ("x3"."employee" = "z"."x2.name")
;
"#,
        ..SQL
    },
    Row {
        query: "table departments",
        out: r#"-- / 75
SELECT 0 AS "ot", 1 AS "on", "x1"."name" AS "c1" FROM "departments" AS "x1"
;
"#,
        ..SQL
    },
    Row {
        query: "[: (a: int, b: [text])]",
        out: r#"-- / 72
SELECT 0 AS "ot", 0 AS "on", 0 AS "c1", 0 AS "c2", 0 AS "c3" WHERE FALSE
;
-- /[].b 51
SELECT 0 AS "ot", 0 AS "on", '' AS "c1" WHERE FALSE
;
"#,
        ..SQL
    },
    Row {
        query: "[[1] ++ [1]]",
        out: r#"-- / 68
SELECT 0 AS "ot", 1 AS "on", 1 AS "c1", ROW_NUMBER() OVER () AS "c2"
;
-- /[] 186
WITH "q.1" AS (SELECT ROW_NUMBER() OVER () AS "n") SELECT 1 AS "ot", "z"."n" AS "on", 1 AS "c1" FROM "q.1" AS "z" UNION ALL SELECT 1 AS "ot", "z"."n" AS "on", 1 AS "c1" FROM "q.1" AS "z"
;
"#,
        ..SQL
    },
    Row {
        query: "(for (d <- table departments) where (d.name == 'Sales') [(n = 'a', b = for (e <- table employees) where (e.dept == d.name) [e.name])]) ++ [(n = 'b', b = [: text])]",
        out: r#"-- / 250
SELECT 0 AS "ot", 1 AS "on", 1 AS "c1", ROW_NUMBER() OVER (ORDER BY "x1"."name") AS "c2", 'a' AS "c3" FROM "departments" AS "x1" WHERE ("x1"."name" = 'Sales') UNION ALL SELECT 0 AS "ot", 1 AS "on", 3 AS "c1", ROW_NUMBER() OVER () AS "c2", 'b' AS "c3"
;
-- /[].b 283
WITH "q.1" AS (SELECT "x1"."name" AS "x1.name", ROW_NUMBER() OVER (ORDER BY "x1"."name") AS "n" FROM "departments" AS "x1" WHERE ("x1"."name" = 'Sales')) SELECT 1 AS "ot", "z"."n" AS "on", "x2"."name" AS "c1" FROM "q.1" AS "z", "employees" AS "x2" WHERE ("x2"."dept" = "z"."x1.name")
;
"#,
        ..SQL
    },
    Row {
        query: "for (d <- table departments) [(d = d.name, es = for (e <- table employees) where (e.dept == d.name) [e.name])]",
        out: r#"-- / 136
SELECT 0 AS "ot", 1 AS "on", "x1"."name" AS "c1", 1 AS "c2", ROW_NUMBER() OVER (ORDER BY "x1"."name") AS "c3" FROM "departments" AS "x1"
;
-- /[].es 253
WITH "q.1" AS (SELECT "x1"."name" AS "x1.name", ROW_NUMBER() OVER (ORDER BY "x1"."name") AS "n" FROM "departments" AS "x1") SELECT 1 AS "ot", "z"."n" AS "on", "x2"."name" AS "c1" FROM "q.1" AS "z", "employees" AS "x2" WHERE ("x2"."dept" = "z"."x1.name")
;
"#,
        ..SQL
    },
    Row {
        query: "for (d <- table departments) [(d = d.name, none = empty(
  (for (e <- table employees) where (e.dept == d.name) [e.name])
  ++ (for (c <- table contacts) where (c.dept == d.name
      && empty(for (t <- table tasks) where (t.employee == c.name) [t])) [c.name])))]",
        out: r#"-- / 360
SELECT 0 AS "ot", 1 AS "on", "x1"."name" AS "c1", (NOT EXISTS (SELECT 1 AS "one" FROM "employees" AS "x2" WHERE ("x2"."dept" = "x1"."name") UNION ALL SELECT 1 AS "one" FROM "contacts" AS "x3" WHERE (("x3"."dept" = "x1"."name") AND (NOT EXISTS (SELECT 1 AS "one" FROM "tasks" AS "x4" WHERE ("x4"."employee" = "x3"."name")))))) AS "c2" FROM "departments" AS "x1"
;
"#,
        ..SQL
    },
    // A comprehension without generators, under one that has two.
    Row {
        query: "for (a <- table departments) for (b <- table contacts) where (b.dept == a.name) [(n = b.name, one = [a.name])]",
        out: r#"-- / 231
SELECT 0 AS "ot", 1 AS "on", "x2"."name" AS "c1", 1 AS "c2", ROW_NUMBER() OVER (ORDER BY "x1"."name", "x2"."dept", "x2"."name", "x2"."client") AS "c3" FROM "departments" AS "x1", "contacts" AS "x2" WHERE ("x2"."dept" = "x1"."name")
;
-- /[].one 375
WITH "q.1" AS (SELECT "x1"."name" AS "x1.name", "x2"."dept" AS "x2.dept", "x2"."name" AS "x2.name", "x2"."client" AS "x2.client", ROW_NUMBER() OVER (ORDER BY "x1"."name", "x2"."dept", "x2"."name", "x2"."client") AS "n" FROM "departments" AS "x1", "contacts" AS "x2" WHERE ("x2"."dept" = "x1"."name")) SELECT 1 AS "ot", "z"."n" AS "on", "z"."x1.name" AS "c1" FROM "q.1" AS "z"
;
"#,
        ..SQL
    },
    // Two parents at one path.
    Row {
        query: "(for (d <- table departments) [(n = d.name, s = for (e <- table employees) where (e.dept == d.name) [e.name])]) ++ (for (c <- table contacts) where (c.client) [(n = c.name, s = [c.dept])])",
        out: r#"-- / 328
SELECT 0 AS "ot", 1 AS "on", "x1"."name" AS "c1", 1 AS "c2", ROW_NUMBER() OVER (ORDER BY "x1"."name") AS "c3" FROM "departments" AS "x1" UNION ALL SELECT 0 AS "ot", 1 AS "on", "x3"."name" AS "c1", 3 AS "c2", ROW_NUMBER() OVER (ORDER BY "x3"."dept", "x3"."name", "x3"."client") AS "c3" FROM "contacts" AS "x3" WHERE "x3"."client"
;
-- /[].s 559
WITH "q.1" AS (SELECT "x1"."name" AS "x1.name", ROW_NUMBER() OVER (ORDER BY "x1"."name") AS "n" FROM "departments" AS "x1"), "q.2" AS (SELECT "x3"."dept" AS "x3.dept", "x3"."name" AS "x3.name", "x3"."client" AS "x3.client", ROW_NUMBER() OVER (ORDER BY "x3"."dept", "x3"."name", "x3"."client") AS "n" FROM "contacts" AS "x3" WHERE "x3"."client") SELECT 1 AS "ot", "z"."n" AS "on", "x2"."name" AS "c1" FROM "q.1" AS "z", "employees" AS "x2" WHERE ("x2"."dept" = "z"."x1.name") UNION ALL SELECT 3 AS "ot", "z"."n" AS "on", "z"."x3.dept" AS "c1" FROM "q.2" AS "z"
;
"#,
        ..SQL
    },
    // An emptiness test with columns from outside, of its SELECT and of its own.
    Row {
        query: "for (d <- table departments) [(n = d.name, alone = for (e <- table employees) where (e.dept == d.name && empty(for (c <- table contacts) where (c.dept == d.name && c.name > e.name && !c.client) [c])) [e.name])]",
        out: r#"-- / 136
SELECT 0 AS "ot", 1 AS "on", 1 AS "c1", ROW_NUMBER() OVER (ORDER BY "x1"."name") AS "c2", "x1"."name" AS "c3" FROM "departments" AS "x1"
;
-- /[].alone 412
WITH "q.1" AS (SELECT "x1"."name" AS "x1.name", ROW_NUMBER() OVER (ORDER BY "x1"."name") AS "n" FROM "departments" AS "x1") SELECT 1 AS "ot", "z"."n" AS "on", "x2"."name" AS "c1" FROM "q.1" AS "z", "employees" AS "x2" WHERE (("x2"."dept" = "z"."x1.name") AND (NOT EXISTS (SELECT 1 AS "one" FROM "contacts" AS "x3" WHERE ((("x3"."dept" = "z"."x1.name") AND ("x3"."name" > "x2"."name")) AND (NOT "x3"."client")))))
;
"#,
        ..SQL
    },
];

#[test]
fn shows_the_texts_of_each_query(rt: HostRuntime) -> Result<(), Fail> {
    let alloc = rt.alloc();
    for row in &TEXTS {
        run_row(&rt, alloc, row, padded(alloc, 0, row.query)?)?;
    }
    Ok(())
}

// A bag of a bag, which a function doubles 13 times.
const DOUBLED: &str =
    "let f = fun (x: [[int]]) -> x ++ x; f(f(f(f(f(f(f(f(f(f(f(f(f([[1]])))))))))))))";

// How many bytes each of its texts has. The 8,192 outer comprehensions have the odd tags to 16,383, which are 35,405
// digits, and their WITH queries the numbers to 8,192, which are 31,661. Between SELECTs stands UNION ALL with its
// blanks, 11 bytes. Each of the first text has 67 bytes and its tag; for each the second has a WITH query of 44 bytes
// and its number, with `, ` between, and a SELECT of 60, its tag and its number.
const TEXT_SIZES: [(&str, usize); 2] = [
    ("/", 8_192 * 67 + 35_405 + 8_191 * 11),
    (
        "/[]",
        5 + 8_192 * 44 + 31_661 + 8_191 * 2 + 1 + 8_192 * 60 + 35_405 + 31_661 + 8_191 * 11,
    ),
];

// What stands behind a frame with this first line, whose text has so many bytes.
fn behind_frame<'a>(written: &'a [u8], line: &str, size: usize) -> Option<&'a [u8]> {
    let text = written.strip_prefix(line.as_bytes())?;
    let (_, end) = text.split_at_checked(size)?;
    end.strip_prefix(b"\n;\n")
}

#[test]
fn shows_texts_of_more_than_a_megabyte(rt: HostRuntime) -> Result<(), Fail> {
    let alloc = rt.alloc();
    let inputs = inputs_of(alloc, &SQL, padded(alloc, 0, DOUBLED)?)?;
    let out = written(&rt, alloc, inputs, SQL.words, 2_000_000)?;
    assert!(&rt; TEXT_SIZES[0].1 + TEXT_SIZES[1].1 > 1_048_576);
    let mut rest = out.bytes();
    for (path, size) in &TEXT_SIZES {
        let line = format!(in alloc; "-- {path} {size}\n")?;
        let behind = behind_frame(rest, line.as_str(), *size);
        assert!(&rt; behind.is_some(), "{path}");
        rest = behind.unwrap_or(rest);
    }
    assert!(&rt; rest.is_empty());
    Ok(())
}
