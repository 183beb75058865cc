// Texts that break a scope rule, and texts with two faults: the first counts. Places are counted by hand.
use crate::shown::{schema, shown};
use std::alloc::{AllocError, Global};
use std::process::Abort;
use std::test::Fail;

const TEXTS: [(&str, &str); 55] = [
    // A source names a table or an earlier WITH query.
    (
        r#"SELECT 1 AS "n" FROM "nobody" AS "x""#,
        "Broken { rule: 1, place: 21 }",
    ),
    (
        r#"WITH "a" AS (SELECT "x"."n" AS "n" FROM "a" AS "x") SELECT 1 AS "n""#,
        "Broken { rule: 1, place: 40 }",
    ),
    // The aliases of one FROM differ.
    (
        r#"SELECT 1 AS "n" FROM "tasks" AS "x", "departments" AS "x""#,
        "Broken { rule: 2, place: 37 }",
    ),
    // An alias is seen inside the SELECT that has it, and nowhere else.
    (
        r#"SELECT "y"."name" AS "n""#,
        "Broken { rule: 3, place: 7 }",
    ),
    (
        r#"SELECT 1 AS "n" WHERE NOT EXISTS (SELECT 1 AS "o" FROM "tasks" AS "t") AND "t"."task" = 'a'"#,
        "Broken { rule: 3, place: 75 }",
    ),
    (
        r#"WITH "q" AS (SELECT "t"."task" AS "n") SELECT 1 AS "n" FROM "tasks" AS "t""#,
        "Broken { rule: 3, place: 20 }",
    ),
    // Its source has the column; the innermost alias counts.
    (
        r#"SELECT "x"."salary" AS "n" FROM "tasks" AS "x""#,
        "Broken { rule: 4, place: 7 }",
    ),
    (
        r#"SELECT 1 AS "n" FROM "employees" AS "x" WHERE NOT EXISTS (SELECT "x"."salary" AS "s" FROM "tasks" AS "x")"#,
        "Broken { rule: 4, place: 65 }",
    ),
    // The operands of an operator.
    (r#"SELECT 1 + TRUE AS "n""#, "Broken { rule: 5, place: 9 }"),
    (r#"SELECT NOT 1 AS "n""#, "Broken { rule: 5, place: 7 }"),
    (r#"SELECT 1 = 'a' AS "n""#, "Broken { rule: 5, place: 9 }"),
    // A condition, a test, and the arms of a CASE.
    (
        r#"SELECT 1 AS "n" WHERE 1 + 2"#,
        "Broken { rule: 6, place: 24 }",
    ),
    (
        r#"SELECT CASE WHEN 1 THEN 1 ELSE 2 END AS "n""#,
        "Broken { rule: 6, place: 7 }",
    ),
    (
        r#"SELECT CASE WHEN TRUE THEN 1 ELSE 'a' END AS "n""#,
        "Broken { rule: 6, place: 7 }",
    ),
    // The names of the items.
    (
        r#"SELECT 1 AS "n", 2 AS "m", 3 AS "n""#,
        "Broken { rule: 7, place: 32 }",
    ),
    // Each further SELECT is typed as the first.
    (
        r#"SELECT 1 AS "a" UNION ALL SELECT TRUE AS "b""#,
        "Broken { rule: 8, place: 26 }",
    ),
    (
        r#"SELECT 1 AS "a" UNION ALL SELECT 1 AS "a", 2 AS "b""#,
        "Broken { rule: 8, place: 26 }",
    ),
    (
        r#"SELECT 1 AS "a" UNION ALL SELECT 2 AS "b" UNION ALL SELECT TRUE AS "a""#,
        "Broken { rule: 8, place: 52 }",
    ),
    // The names of the WITH queries.
    (
        r#"WITH "q" AS (SELECT 1 AS "n"), "q" AS (SELECT 1 AS "n") SELECT 1 AS "n""#,
        "Broken { rule: 9, place: 31 }",
    ),
    (
        r#"WITH "tasks" AS (SELECT 1 AS "n") SELECT 1 AS "n""#,
        "Broken { rule: 9, place: 5 }",
    ),
    // Sources come before items, a source's table before its alias, the condition before items, operands before
    // their operator and the left before the right, an item before its name, a SELECT before its types, and the
    // name of a WITH query before its query.
    (
        r#"SELECT 1 + TRUE AS "n" FROM "nobody" AS "x""#,
        "Broken { rule: 1, place: 28 }",
    ),
    (
        r#"SELECT 1 AS "n" FROM "tasks" AS "x", "nobody" AS "x""#,
        "Broken { rule: 1, place: 37 }",
    ),
    (
        r#"SELECT "y"."a" AS "n" WHERE 1"#,
        "Broken { rule: 6, place: 28 }",
    ),
    (
        r#"SELECT (1 + TRUE) = (NOT 1) AS "n""#,
        "Broken { rule: 5, place: 10 }",
    ),
    (
        r#"SELECT 1 AS "n", TRUE + 1 AS "n""#,
        "Broken { rule: 5, place: 22 }",
    ),
    (
        r#"SELECT 1 AS "a" UNION ALL SELECT TRUE AS "b", 1 AS "b""#,
        "Broken { rule: 7, place: 51 }",
    ),
    (
        r#"WITH "tasks" AS (SELECT 1 + TRUE AS "n") SELECT 1 AS "n""#,
        "Broken { rule: 9, place: 5 }",
    ),
    // The rules of a scalar query: its sources, its condition, and then its value, which is an int.
    (
        r#"SELECT (SELECT COUNT(*) FROM "nobody" AS "x") AS "n""#,
        "Broken { rule: 1, place: 29 }",
    ),
    (
        r#"SELECT (SELECT COUNT(*) FROM "departments" AS "d", "tasks" AS "d") AS "n""#,
        "Broken { rule: 2, place: 51 }",
    ),
    (
        r#"SELECT (SELECT COUNT(*) WHERE 1) AS "n""#,
        "Broken { rule: 6, place: 30 }",
    ),
    (
        r#"SELECT (SELECT COALESCE(SUM(TRUE), 0)) AS "n""#,
        "Broken { rule: 10, place: 28 }",
    ),
    (
        r#"SELECT (SELECT COALESCE(SUM("t"."task"), 0) FROM "tasks" AS "t") AS "n""#,
        "Broken { rule: 10, place: 28 }",
    ),
    (
        r#"SELECT (SELECT COALESCE(SUM(1 = 1), 0)) AS "n""#,
        "Broken { rule: 10, place: 30 }",
    ),
    (
        r#"SELECT (SELECT COALESCE(SUM(1 = 'a'), 0)) AS "n""#,
        "Broken { rule: 5, place: 30 }",
    ),
    (
        r#"SELECT (SELECT COUNT(*) FROM "nobody" AS "x" WHERE 1) AS "n""#,
        "Broken { rule: 1, place: 29 }",
    ),
    (
        r#"SELECT (SELECT COALESCE(SUM("x"."a"), 0) WHERE 1) AS "n""#,
        "Broken { rule: 6, place: 47 }",
    ),
    (
        r#"SELECT (SELECT COALESCE(SUM("x"."a"), 0) WHERE TRUE) AS "n""#,
        "Broken { rule: 3, place: 28 }",
    ),
    (
        r#"SELECT (SELECT COUNT(*)) = TRUE AS "n""#,
        "Broken { rule: 5, place: 25 }",
    ),
    (
        r#"SELECT 1 AS "n" WHERE (SELECT COUNT(*))"#,
        "Broken { rule: 6, place: 22 }",
    ),
    // Its aliases are seen inside it alone, and the innermost counts.
    (
        r#"SELECT (SELECT COUNT(*) FROM "tasks" AS "t") AS "n", "t"."task" AS "m""#,
        "Broken { rule: 3, place: 53 }",
    ),
    (
        r#"SELECT (SELECT COALESCE(SUM("x"."salary"), 0) FROM "tasks" AS "x") AS "n" FROM "employees" AS "x""#,
        "Broken { rule: 4, place: 28 }",
    ),
    // What is no text has no scope.
    (r#"SELECT "y"."a" AS "n" FROM"#, "Unexpected { place: 26 }"),
    (r#"SELECT 1 = 2 = 3 AS "n" ?"#, "Token { place: 24 }"),
    (
        r#"SELECT 9223372036854775808 AS "n" FROM"#,
        "IntRange { place: 7 }",
    ),
    // A scalar query has one form for a count and one for a sum.
    (
        r#"SELECT (SELECT COALESCE(SUM(1), 00)) AS "n""#,
        "Unexpected { place: 32 }",
    ),
    (
        r#"SELECT (SELECT COALESCE(SUM(1), 1)) AS "n""#,
        "Unexpected { place: 32 }",
    ),
    (
        r#"SELECT (SELECT COALESCE(1, 0)) AS "n""#,
        "Unexpected { place: 24 }",
    ),
    (
        r#"SELECT (SELECT COUNT(1)) AS "n""#,
        "Unexpected { place: 21 }",
    ),
    (
        r#"SELECT (SELECT SUM(1)) AS "n""#,
        "Unexpected { place: 15 }",
    ),
    (r#"SELECT COUNT(*) AS "n""#, "Unexpected { place: 7 }"),
    (
        r#"SELECT (SELECT 1 AS "n") AS "n""#,
        "Unexpected { place: 15 }",
    ),
    (
        r#"SELECT (SELECT COUNT(*) UNION ALL SELECT COUNT(*)) AS "n""#,
        "Unexpected { place: 24 }",
    ),
    (
        r#"SELECT (SELECT COUNT(*) AS "m") AS "n""#,
        "Unexpected { place: 24 }",
    ),
    (
        r#"SELECT (SELECT COALESCE(SUM(1 + ), 0)) AS "n""#,
        "Unexpected { place: 32 }",
    ),
    (
        r#"SELECT (SELECT COUNT(*) WHERE TRUE FROM "tasks" AS "t") AS "n""#,
        "Unexpected { place: 35 }",
    ),
];

// How many parentheses stand round an expression, the expression, and what comes of the text.
const NESTED: [(u64, &str, &str); 7] = [
    (197, "1", r#"SELECT 1 AS "n" Int"#),
    (198, "1", "Deep { place: 205 }"),
    (
        198,
        "SELECT COUNT(*)",
        r#"SELECT (SELECT COUNT(*)) AS "n" Int"#,
    ),
    (198, "", "Unexpected { place: 205 }"),
    (199, "SELECT COUNT(*)", "Deep { place: 205 }"),
    (
        197,
        "SELECT COALESCE(SUM(1), 0)",
        r#"SELECT (SELECT COALESCE(SUM(1), 0)) AS "n" Int"#,
    ),
    (198, "SELECT COALESCE(SUM(1), 0)", "Deep { place: 212 }"),
];

fn nested(alloc: Global, count: u64, inner: &str) -> Result<String, AllocError> {
    let mut text = String::from_str(alloc, "SELECT ")?;
    for _ in 0..count {
        text.push_str("(")?;
    }
    text.push_str(inner)?;
    for _ in 0..count {
        text.push_str(")")?;
    }
    text.push_str(r#" AS "n""#)?;
    Ok(text)
}

#[test]
fn refuses(rt: HostRuntime) -> Result<(), Fail> {
    let alloc = rt.alloc();
    let schema = schema(alloc).expect(&rt, "there is memory");
    for (text, want) in &TEXTS {
        let got = shown(alloc, &schema, text, 200).expect(&rt, "there is memory");
        assert_eq!(&rt; got.as_str(), *want);
    }
    for (count, inner, want) in &NESTED {
        let text = nested(alloc, *count, inner)?;
        let got = shown(alloc, &schema, text.as_str(), 200).expect(&rt, "there is memory");
        assert_eq!(&rt; got.as_str(), *want);
    }
    Ok(())
}
