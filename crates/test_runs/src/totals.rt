// Whole runs of queries with counts and sums, over each server.
use crate::nested::{Nested, WHOLE, check_nested};
use crate::queries::{CHECK, NORMAL, RUN, Row, SYNTAX, TYPES, brackets, run_row, run_row_over};
use crate::runs::{Engine, padded};
use crate::sql_texts::SQL;
use std::alloc::Global;
use std::process::Abort;
use std::test::Fail;

// Each department with how many employees it has, and what they earn together.
const STAFFED: &str = "nq 2;
for (d <- table departments) [(d = d.name,
  n = count(for (e <- table employees) where (e.dept == d.name) [e]),
  s = sum(for (e <- table employees) where (e.dept == d.name) [e.salary]))]
";

// Queries, each with what is written.
const TOTALS: [(&str, &str); 24] = [
    (
        "nq 2;
for (d <- table departments) [(d = d.name,
  n = count(for (e <- table employees) where (e.dept == d.name) [e]),
  s = sum(for (e <- table employees) where (e.dept == d.name) [e.salary]))]",
        "{(d = 'Product', n = 2, s = 20900), (d = 'Quality', n = 0, s = 0), (d = 'Research', n = 0, s = 0), (d = 'Sales', n = 1, s = 2000000)}\n",
    ),
    (
        "nq 2; [sum([9223372036854775807] ++ [1])]",
        "{-9223372036854775808}\n",
    ),
    ("nq 2; [count([: int])]", "{0}\n"),
    ("let count = 3; [count]", "{3}\n"),
    ("nq 2; [sum([1] ++ [2] ++ [3])]", "{6}\n"),
    (
        "nq 2; [count(table departments ++ table departments)]",
        "{8}\n",
    ),
    (
        "nq 2; for (d <- table departments)
where (count(for (e <- table employees) where (e.dept == d.name) [e]) > 1) [d.name]",
        "{'Product'}\n",
    ),
    (
        "nq 2; [empty(for (d <- table departments) where (count(table tasks) == 2) [sum([: int])])]",
        "{true}\n",
    ),
    ("nq 2; [count([[1] ++ [2]] ++ [[: int]])]", "{2}\n"),
    (
        "nq 2; [sum(for (d <- table departments)
  [count(for (e <- table employees) where (e.dept == d.name) [e])])]",
        "{3}\n",
    ),
    (
        "nq 2; for (e <- table employees) [sum(for (t <- table tasks) [e.salary])]",
        "{3600, 80000, 8000000}\n",
    ),
    ("nq 2; [count(if true then [1] else [2] ++ [3])]", "{1}\n"),
    (
        "nq 2; [if count(table contacts) > 2 then sum(for (e <- table employees) [e.salary]) else 0]",
        "{2020900}\n",
    ),
    (
        "nq 2; let twice = fun (b: [int]) -> sum(b) + count(b); [twice([4] ++ [5])]",
        "{11}\n",
    ),
    (
        "nq 2; [sum(for (x <- [1] ++ [2]) for (e <- table employees) [x])]",
        "{9}\n",
    ),
    ("nq 2; [sum(where (empty(table tasks)) [7])]", "{0}\n"),
    ("nq 2; [-sum([5]) * 2]", "{-10}\n"),
    (
        "nq 2; for (d <- table departments) [(d = d.name,
  es = for (e <- table employees) where (e.dept == d.name)
    [(n = e.name, k = count(for (t <- table tasks) where (t.employee == e.name) [t]))])]",
        "{(d = 'Product', es = {(k = 1, n = 'Alex'), (k = 1, n = 'Bert')}), (d = 'Quality', es = {}), (d = 'Research', es = {}), (d = 'Sales', es = {(k = 2, n = 'Erik')})}\n",
    ),
    ("nq 2; [1]", "{1}\n"),
    ("nq 2; [(count = 1).count]", "{1}\n"),
    ("let sum = fun (x: int) -> x; [sum(2)]", "{2}\n"),
    ("let nq = 2; [nq]", "{2}\n"),
    ("nq 2; let nq = 2; [nq]", "{2}\n"),
    // A count over 16 comprehensions, and a test of 4,096.
    (
        "nq 2; let f = fun (b: [int]) -> b ++ b;
[(n = count(f(f(f(f([1]))))), none = empty(f(f(f(f(f(f(f(f(f(f(f(f([1]))))))))))))))]",
        "{(n = 16, none = false)}\n",
    ),
];

// What is refused and what is shown, behind the header and without it.
const ROWS: [Row; 21] = [
    Row {
        query: STAFFED,
        out: "nq 2; for (x1 <- table departments) [(d = x1.name, n = count(for (x2 <- table employees) where (x2.dept == x1.name) [()]), s = sum(for (x3 <- table employees) where (x3.dept == x1.name) [x3.salary]))]\n",
        ..NORMAL
    },
    Row {
        query: "nq 2; [count([: int])]",
        out: "[0]\n",
        ..NORMAL
    },
    Row {
        query: "nq 2; [1]",
        out: "[1]\n",
        ..NORMAL
    },
    Row {
        query: STAFFED,
        out: r#"-- / 270
SELECT 0 AS "ot", 1 AS "on", "x1"."name" AS "c1", (SELECT COUNT(*) FROM "employees" AS "x2" WHERE ("x2"."dept" = "x1"."name")) AS "c2", (SELECT COALESCE(SUM("x3"."salary"), 0) FROM "employees" AS "x3" WHERE ("x3"."dept" = "x1"."name")) AS "c3" FROM "departments" AS "x1"
;
"#,
        ..SQL
    },
    Row {
        query: "[count(table tasks)]",
        note: "nq: query refused: Unbound at 1\n",
        ..SYNTAX
    },
    Row {
        query: "nq 2; let count = 3; [count]",
        note: "nq: query refused: Unexpected at 10\n",
        ..SYNTAX
    },
    Row {
        query: "nq 3; [1]",
        note: "nq: query refused: Unexpected at 3\n",
        ..SYNTAX
    },
    Row {
        query: "nq 02; [1]",
        note: "nq: query refused: Unexpected at 3\n",
        ..SYNTAX
    },
    Row {
        query: "nq 2 [1]",
        note: "nq: query refused: Unexpected at 3\n",
        ..SYNTAX
    },
    Row {
        query: "nq 2;",
        note: "nq: query refused: Unexpected at 5\n",
        ..SYNTAX
    },
    Row {
        query: "nq 2; nq 2; [1]",
        note: "nq: query refused: Unexpected at 9\n",
        ..SYNTAX
    },
    Row {
        query: "nq",
        note: "nq: query refused: Unbound at 0\n",
        ..SYNTAX
    },
    Row {
        query: "nq 2; [count()]",
        note: "nq: query refused: Unexpected at 13\n",
        ..SYNTAX
    },
    Row {
        query: "nq 2; for (sum <- [1]) [sum]",
        note: "nq: query refused: Unexpected at 11\n",
        ..SYNTAX
    },
    Row {
        query: "nq 2; [sum([true])]",
        note: "nq: ill typed: rule 25 at 7\n",
        ..TYPES
    },
    Row {
        query: "nq 2; [sum(1)]",
        note: "nq: ill typed: rule 25 at 7\n",
        ..TYPES
    },
    Row {
        query: "nq 2; [sum(table tasks)]",
        note: "nq: ill typed: rule 25 at 7\n",
        ..TYPES
    },
    Row {
        query: "nq 2; [count(table nobody)]",
        note: "nq: ill typed: rule 5 at 13\n",
        ..TYPES
    },
    Row {
        query: "nq 2 ; # c\n [count(1)]",
        note: "nq: ill typed: rule 24 at 13\n",
        ..TYPES
    },
    Row {
        query: "nq 2; [sum([true])]",
        status: 5,
        out: "",
        note: "nq: ill typed: rule 25 at 7\n",
        ..RUN
    },
    // A count over 4,096 comprehensions is a sum of as many counts.
    Row {
        query: "nq 2; let f = fun (b: [int]) -> b ++ b;
[count(f(f(f(f(f(f(f(f(f(f(f(f([1])))))))))))))]",
        out: "{4096}\n",
        ..RUN
    },
];

fn check_totals(rt: &impl Abort, alloc: Global, engine: Engine) -> Result<(), Fail> {
    for (query, out) in &TOTALS {
        let nested = Nested {
            query: *query,
            out: *out,
            ..WHOLE
        };
        check_nested(rt, alloc, engine, &nested)?;
    }
    Ok(())
}

#[test]
fn counts_and_sums(rt: HostRuntime) -> Result<(), Fail> {
    for engine in [Engine::Plain, Engine::Crooked, Engine::Fast] {
        check_totals(&rt, rt.alloc(), engine)?;
    }
    Ok(())
}

#[test]
fn refuses_and_shows_counts_and_sums(rt: HostRuntime) -> Result<(), Fail> {
    let alloc = rt.alloc();
    for row in &ROWS {
        for engine in [Engine::Plain, Engine::Crooked, Engine::Fast] {
            run_row_over(&rt, alloc, engine, row, padded(alloc, 0, row.query)?)?;
        }
    }
    // The header adds nothing to the depth, and a count adds one.
    let deep = Row {
        note: "nq: query refused: Deep at 212\n",
        ..SYNTAX
    };
    run_row(&rt, alloc, &CHECK, brackets(alloc, "nq 2; ", 199, "1")?)?;
    run_row(
        &rt,
        alloc,
        &CHECK,
        brackets(alloc, "nq 2; ", 197, " count([1])")?,
    )?;
    run_row(
        &rt,
        alloc,
        &deep,
        brackets(alloc, "nq 2; ", 198, " count([1])")?,
    )
}
