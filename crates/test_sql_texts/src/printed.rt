// Texts with what is printed of them and the types of their columns, and texts that are printed as they are.
use crate::shown::{schema, shown};
use std::process::Abort;
use std::test::Fail;

// A text, what is printed of it, and the types of its columns.
const TEXTS: [(&str, &str, &str); 20] = [
    (r#"SELECT -1 AS "n""#, r#"SELECT (- 1) AS "n""#, " Int"),
    (
        r#"sElEcT tRuE aS "n" -- and a "comment""#,
        r#"SELECT TRUE AS "n""#,
        " Bool",
    ),
    (
        r#"SELECT 'it''s''' AS "n""#,
        r#"SELECT 'it''s''' AS "n""#,
        " Text",
    ),
    (r#"SELECT '''' AS "n""#, r#"SELECT '''' AS "n""#, " Text"),
    (r#"SELECT ((007)) AS "n" ;"#, r#"SELECT 7 AS "n""#, " Int"),
    (
        r#"SELECT 1 - 2 - 3 * - 4 AS "n""#,
        r#"SELECT ((1 - 2) - (3 * (- 4))) AS "n""#,
        " Int",
    ),
    (
        r#"SELECT - - 1 AS "n""#,
        r#"SELECT (- (- 1)) AS "n""#,
        " Int",
    ),
    (
        r#"SELECT NOT 1 = 2 OR 3 <> 4 AND TRUE AS "n""#,
        r#"SELECT ((NOT (1 = 2)) OR ((3 <> 4) AND TRUE)) AS "n""#,
        " Bool",
    ),
    (
        r#"SELECT 'a' <= 'b' AND FALSE < TRUE AND (1 = 2) >= FALSE AS "n""#,
        r#"SELECT ((('a' <= 'b') AND (FALSE < TRUE)) AND ((1 = 2) >= FALSE)) AS "n""#,
        " Bool",
    ),
    (
        r#"SELECT CASE WHEN 1 > 2 THEN 'a' ELSE 'b' END AS "n""#,
        r#"SELECT CASE WHEN (1 > 2) THEN 'a' ELSE 'b' END AS "n""#,
        " Text",
    ),
    (
        r#"SELECT 1 AS "n", TRUE AS "m" UNION ALL SELECT 2 AS "a", FALSE AS "a.b" UNION ALL SELECT 3 AS "n", TRUE AS "m""#,
        r#"SELECT 1 AS "n", TRUE AS "m" UNION ALL SELECT 2 AS "a", FALSE AS "a.b" UNION ALL SELECT 3 AS "n", TRUE AS "m""#,
        " Int Bool",
    ),
    (
        r#"with "q" as (select "t"."task" as "n" from "tasks" as "t") select "a"."n" as "a", "b"."n" as "b" from "q" as "a", "q" as "b" where "a"."n" = "b"."n""#,
        r#"WITH "q" AS (SELECT "t"."task" AS "n" FROM "tasks" AS "t") SELECT "a"."n" AS "a", "b"."n" AS "b" FROM "q" AS "a", "q" AS "b" WHERE ("a"."n" = "b"."n")"#,
        " Text Text",
    ),
    (
        r#"WITH "q" AS (SELECT 1 AS "n"), "r" AS (SELECT "q"."n" AS "m" FROM "q" AS "q") SELECT ROW_NUMBER() OVER (ORDER BY "r"."m", 'a', TRUE) AS "n" FROM "r" AS "r""#,
        r#"WITH "q" AS (SELECT 1 AS "n"), "r" AS (SELECT "q"."n" AS "m" FROM "q" AS "q") SELECT ROW_NUMBER() OVER (ORDER BY "r"."m", 'a', TRUE) AS "n" FROM "r" AS "r""#,
        " Int",
    ),
    (
        r#"SELECT 1 AS "n" FROM "tasks" AS "x" WHERE NOT EXISTS (SELECT 1 AS "n" FROM "employees" AS "x" WHERE "x"."salary" = 1 AND NOT EXISTS (SELECT 1 AS "n" WHERE NOT EXISTS (SELECT "x"."salary" AS "n")))"#,
        r#"SELECT 1 AS "n" FROM "tasks" AS "x" WHERE (NOT EXISTS (SELECT 1 AS "n" FROM "employees" AS "x" WHERE (("x"."salary" = 1) AND (NOT EXISTS (SELECT 1 AS "n" WHERE (NOT EXISTS (SELECT "x"."salary" AS "n")))))))"#,
        " Int",
    ),
    // Scalar queries, whose own parentheses are printed and those round them are not.
    (
        r#"SELECT (select count(*) where false) + 1 AS "n""#,
        r#"SELECT ((SELECT COUNT(*) WHERE FALSE) + 1) AS "n""#,
        " Int",
    ),
    (
        r#"SELECT ((SELECT COUNT(*))) AS "n""#,
        r#"SELECT (SELECT COUNT(*)) AS "n""#,
        " Int",
    ),
    (
        r#"SELECT (SELECT COALESCE(SUM("e"."salary" * 2 - 1), 0) FROM "employees" AS "e", "tasks" AS "t" WHERE "e"."name" = "t"."employee") > 1 AS "n""#,
        r#"SELECT ((SELECT COALESCE(SUM((("e"."salary" * 2) - 1)), 0) FROM "employees" AS "e", "tasks" AS "t" WHERE ("e"."name" = "t"."employee")) > 1) AS "n""#,
        " Bool",
    ),
    // The innermost alias counts: no row of the employees has a task.
    (
        r#"SELECT (SELECT COUNT(*) FROM "tasks" AS "x" WHERE "x"."task" = 'build') AS "n" FROM "employees" AS "x""#,
        r#"SELECT (SELECT COUNT(*) FROM "tasks" AS "x" WHERE ("x"."task" = 'build')) AS "n" FROM "employees" AS "x""#,
        " Int",
    ),
    // A count in a condition, in an order key, in a CASE and inside NOT EXISTS, and a sum of a count.
    (
        r#"SELECT ROW_NUMBER() OVER (ORDER BY (SELECT COUNT(*) FROM "employees" AS "e")) AS "n", CASE WHEN (SELECT COUNT(*)) = 1 THEN 'a' ELSE 'b' END AS "m" WHERE (SELECT COUNT(*)) > 1 AND NOT EXISTS (SELECT 1 AS "n" WHERE (SELECT COUNT(*)) = 1)"#,
        r#"SELECT ROW_NUMBER() OVER (ORDER BY (SELECT COUNT(*) FROM "employees" AS "e")) AS "n", CASE WHEN ((SELECT COUNT(*)) = 1) THEN 'a' ELSE 'b' END AS "m" WHERE (((SELECT COUNT(*)) > 1) AND (NOT EXISTS (SELECT 1 AS "n" WHERE ((SELECT COUNT(*)) = 1))))"#,
        " Int Text",
    ),
    (
        r#"SELECT (SELECT COALESCE(SUM((SELECT COUNT(*) FROM "tasks" AS "t" WHERE "t"."employee" = "e"."name")), 0) FROM "employees" AS "e") AS "n""#,
        r#"SELECT (SELECT COALESCE(SUM((SELECT COUNT(*) FROM "tasks" AS "t" WHERE ("t"."employee" = "e"."name"))), 0) FROM "employees" AS "e") AS "n""#,
        " Int",
    ),
];

// The texts of worked queries, which are printed already, and the types of their columns.
const PRINTED: [(&str, &str); 13] = [
    (
        r#"SELECT 0 AS "ot", 1 AS "on", "x1"."name" AS "c1", 1 AS "c2", ROW_NUMBER() OVER (ORDER BY "x1"."name") AS "c3" FROM "departments" AS "x1""#,
        " Int Int Text Int Int",
    ),
    (
        r#"WITH "q.1" AS (SELECT "x1"."name" AS "x1.name", ROW_NUMBER() OVER (ORDER BY "x1"."name") AS "n" FROM "departments" AS "x1") SELECT 1 AS "ot", "z"."n" AS "on", "x2"."name" AS "c1", 2 AS "c2", ROW_NUMBER() OVER (ORDER BY "z"."x1.name", "x2"."dept", "x2"."name", "x2"."salary") AS "c3" FROM "q.1" AS "z", "employees" AS "x2" WHERE ("x2"."dept" = "z"."x1.name")"#,
        " Int Int Text Int Int",
    ),
    (
        r#"WITH "q.1" AS (SELECT "x1"."name" AS "x1.name", "x2"."dept" AS "x2.dept", "x2"."name" AS "x2.name", "x2"."salary" AS "x2.salary", ROW_NUMBER() OVER (ORDER BY "x1"."name", "x2"."dept", "x2"."name", "x2"."salary") AS "n" FROM "departments" AS "x1", "employees" AS "x2" WHERE ("x2"."dept" = "x1"."name")) SELECT 2 AS "ot", "z"."n" AS "on", "x3"."task" AS "c1" FROM "q.1" AS "z", "tasks" AS "x3" WHERE ("x3"."employee" = "z"."x2.name")"#,
        " Int Int Text",
    ),
    (
        r#"SELECT 0 AS "ot", 1 AS "on", "x1"."name" AS "c1" FROM "departments" AS "x1""#,
        " Int Int Text",
    ),
    (
        r#"SELECT 0 AS "ot", 0 AS "on", 0 AS "c1", 0 AS "c2", 0 AS "c3" WHERE FALSE"#,
        " Int Int Int Int Int",
    ),
    (
        r#"SELECT 0 AS "ot", 0 AS "on", '' AS "c1" WHERE FALSE"#,
        " Int Int Text",
    ),
    (
        r#"SELECT 0 AS "ot", 1 AS "on", 1 AS "c1", ROW_NUMBER() OVER () AS "c2""#,
        " Int Int Int Int",
    ),
    (
        r#"WITH "q.1" AS (SELECT ROW_NUMBER() OVER () AS "n") SELECT 1 AS "ot", "z"."n" AS "on", 1 AS "c1" FROM "q.1" AS "z" UNION ALL SELECT 1 AS "ot", "z"."n" AS "on", 1 AS "c1" FROM "q.1" AS "z""#,
        " Int Int Int",
    ),
    (
        r#"SELECT 0 AS "ot", 1 AS "on", 1 AS "c1", ROW_NUMBER() OVER (ORDER BY "x1"."name") AS "c2", 'a' AS "c3" FROM "departments" AS "x1" WHERE ("x1"."name" = 'Sales') UNION ALL SELECT 0 AS "ot", 1 AS "on", 3 AS "c1", ROW_NUMBER() OVER () AS "c2", 'b' AS "c3""#,
        " Int Int Int Int Text",
    ),
    (
        r#"WITH "q.1" AS (SELECT "x1"."name" AS "x1.name", ROW_NUMBER() OVER (ORDER BY "x1"."name") AS "n" FROM "departments" AS "x1" WHERE ("x1"."name" = 'Sales')) SELECT 1 AS "ot", "z"."n" AS "on", "x2"."name" AS "c1" FROM "q.1" AS "z", "employees" AS "x2" WHERE ("x2"."dept" = "z"."x1.name")"#,
        " Int Int Text",
    ),
    (
        r#"WITH "q.1" AS (SELECT "x1"."name" AS "x1.name", ROW_NUMBER() OVER (ORDER BY "x1"."name") AS "n" FROM "departments" AS "x1") SELECT 1 AS "ot", "z"."n" AS "on", "x2"."name" AS "c1" FROM "q.1" AS "z", "employees" AS "x2" WHERE ("x2"."dept" = "z"."x1.name")"#,
        " Int Int Text",
    ),
    (
        r#"SELECT 0 AS "ot", 1 AS "on", "x1"."name" AS "c1", (NOT EXISTS (SELECT 1 AS "one" FROM "employees" AS "x2" WHERE ("x2"."dept" = "x1"."name") UNION ALL SELECT 1 AS "one" FROM "contacts" AS "x3" WHERE (("x3"."dept" = "x1"."name") AND (NOT EXISTS (SELECT 1 AS "one" FROM "tasks" AS "x4" WHERE ("x4"."employee" = "x3"."name")))))) AS "c2" FROM "departments" AS "x1""#,
        " Int Int Text Bool",
    ),
    (
        r#"SELECT 0 AS "ot", 1 AS "on", "x1"."name" AS "c1", (SELECT COUNT(*) FROM "employees" AS "x2" WHERE ("x2"."dept" = "x1"."name")) AS "c2", (SELECT COALESCE(SUM("x3"."salary"), 0) FROM "employees" AS "x3" WHERE ("x3"."dept" = "x1"."name")) AS "c3" FROM "departments" AS "x1""#,
        " Int Int Text Int Int",
    ),
];

#[test]
fn prints(rt: HostRuntime) -> Result<(), Fail> {
    let alloc = rt.alloc();
    let schema = schema(alloc).expect(&rt, "there is memory");
    for (text, printed, types) in &TEXTS {
        let want = format!(in alloc; "{printed}{types}")?;
        let got = shown(alloc, &schema, text, 200).expect(&rt, "there is memory");
        assert_eq!(&rt; got.as_str(), want.as_str());
    }
    Ok(())
}

#[test]
fn prints_as_it_is(rt: HostRuntime) -> Result<(), Fail> {
    let alloc = rt.alloc();
    let schema = schema(alloc).expect(&rt, "there is memory");
    for (text, types) in &PRINTED {
        let want = format!(in alloc; "{text}{types}")?;
        let got = shown(alloc, &schema, text, text.len() as u64).expect(&rt, "there is memory");
        assert_eq!(&rt; got.as_str(), want.as_str());
    }
    Ok(())
}
