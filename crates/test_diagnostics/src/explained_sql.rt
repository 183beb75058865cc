// Explanations of SQL texts, written by hand: what a person who knows SQL tried first.
use explanations::{columns_line, explain_scope, explain_sql, explain_table_name};
use nq_model::{List, Memory, Schema};
use schema_reader::read_schema;
use sql_reader::read_sql;
use sql_scope::{ScopeFault, found_parts, scope};
use std::alloc::Global;
use std::process::Abort;
use std::test::Fail;

const SCHEMA: &[u8] = b"table departments (name: text);
table employees (dept: text, name: text, salary: int);
";

fn schema_of(alloc: Global) -> Result<Schema, Memory> {
    match read_schema(alloc, SCHEMA) {
        Ok(schema) => Ok(schema),
        Err(_) => Err(Memory),
    }
}

// What is said of an SQL text: why it is refused, or its columns.
fn explained(alloc: Global, text: &[u8], depth: u64) -> Result<List<u8>, Memory> {
    let schema = schema_of(alloc)?;
    match read_sql(alloc, text, depth) {
        Ok(tree) => match scope(alloc, &schema, &tree) {
            Ok(types) => columns_line(alloc, &tree, types.as_slice()),
            Err(ScopeFault::Broken { rule, place }) => {
                let found = found_parts(alloc, &schema, &tree)?;
                explain_scope(alloc, b"q", text, u64::from(rule), place, &schema, &found)
            }
            Err(ScopeFault::Memory) => Err(Memory),
        },
        Err(fault) => explain_sql(alloc, b"q", text, depth, &fault),
    }
}

// An SQL text, and what is said of it.
const EXPLAINED: [(&str, &str); 34] = [
    // Words and bytes with which nothing begins.
    (
        "SELECT * FROM departments",
        "q:1:15: A name stands in double quotes, as in \"d\".\"name\".
SELECT * FROM departments
              ^
",
    ),
    (
        "SELECT 1 AS \"n\" FROM \"departments\" AS \"d\" join \"employees\" AS \"e\"",
        "q:1:43: There is no JOIN. List the sources behind FROM, and compare their columns in WHERE.
SELECT 1 AS \"n\" FROM \"departments\" AS \"d\" join \"employees\" AS \"e\"
                                          ^
",
    ),
    (
        "SELECT 1 AS \"n\" WHERE 'a' != 'b'",
        "q:1:27: Unequal is written <>.
SELECT 1 AS \"n\" WHERE 'a' != 'b'
                          ^
",
    ),
    (
        "SELECT 9223372036854775808 AS \"n\"",
        "q:1:8: This number is too large. The largest is 9223372036854775807.
SELECT 9223372036854775808 AS \"n\"
       ^
",
    ),
    // What stands there, and what could.
    (
        "",
        "q:1:1: The text is empty. It begins with SELECT or WITH.

^
found: the end of the text
expected: WITH or SELECT
",
    ),
    (
        "SELECT * FROM \"departments\" AS \"d\"",
        "q:1:8: Name the columns, as in SELECT \"d\".\"name\" AS \"n\". There is no SELECT *.
SELECT * FROM \"departments\" AS \"d\"
       ^
found: *
expected: an expression or ROW_NUMBER
",
    ),
    (
        "SELECT \"d\".\"name\" FROM \"departments\" AS \"d\"",
        "q:1:19: Each item has a name, as in 1 AS \"n\".
SELECT \"d\".\"name\" FROM \"departments\" AS \"d\"
                  ^
found: FROM
expected: an operator or AS
",
    ),
    (
        "SELECT \"name\" AS \"n\" FROM \"departments\" AS \"d\"",
        "q:1:15: A column is written \"d\".\"name\", and a text 'Oslo' in single quotes.
SELECT \"name\" AS \"n\" FROM \"departments\" AS \"d\"
              ^
found: AS
expected: a dot
",
    ),
    (
        "SELECT 1 AS \"n\" FROM \"departments\"",
        "q:1:35: An AS is missing, as in FROM \"departments\" AS \"d\" or WITH \"q\" AS (..).
SELECT 1 AS \"n\" FROM \"departments\"
                                  ^
found: the end of the text
expected: AS
",
    ),
    (
        "SELECT 1 AS \"n\" FROM \"departments\" AS \"d\" ORDER BY \"d\".\"name\"",
        "q:1:43: Rows have no order. ORDER BY stands only in ROW_NUMBER() OVER (ORDER BY ..).
SELECT 1 AS \"n\" FROM \"departments\" AS \"d\" ORDER BY \"d\".\"name\"
                                          ^
found: ORDER
expected: UNION, WHERE, a comma, a semicolon or the end of the text
",
    ),
    (
        "SELECT COUNT(*) AS \"n\" FROM \"employees\" AS \"e\"",
        "q:1:8: A count is written (SELECT COUNT(*) FROM \"tasks\" AS \"t\"), in parentheses.
SELECT COUNT(*) AS \"n\" FROM \"employees\" AS \"e\"
       ^
found: COUNT
expected: an expression or ROW_NUMBER
",
    ),
    (
        "SELECT (SELECT SUM(\"e\".\"salary\") FROM \"employees\" AS \"e\") AS \"n\"",
        "q:1:16: A sum is written COALESCE(SUM(..), 0), so that a sum of nothing is 0.
SELECT (SELECT SUM(\"e\".\"salary\") FROM \"employees\" AS \"e\") AS \"n\"
               ^
found: SUM
expected: COUNT or COALESCE
",
    ),
    (
        "SELECT (SELECT COALESCE(SUM(1), 1) FROM \"employees\" AS \"e\") AS \"n\"",
        "q:1:33: A sum of nothing is 0, as in COALESCE(SUM(\"t\".\"n\"), 0).
SELECT (SELECT COALESCE(SUM(1), 1) FROM \"employees\" AS \"e\") AS \"n\"
                                ^
found: a number
expected: 0
",
    ),
    (
        "SELECT 1 AS \"n\" WHERE EXISTS (SELECT 1 AS \"n\")",
        "q:1:23: EXISTS stands behind NOT alone. Write NOT (NOT EXISTS (SELECT ..)).
SELECT 1 AS \"n\" WHERE EXISTS (SELECT 1 AS \"n\")
                      ^
found: EXISTS
expected: an expression
",
    ),
    (
        "SELECT 1 AS \"n\" UNION SELECT 2 AS \"n\"",
        "q:1:23: UNION is always UNION ALL, which keeps equal rows.
SELECT 1 AS \"n\" UNION SELECT 2 AS \"n\"
                      ^
found: SELECT
expected: ALL
",
    ),
    (
        "SELECT 1 AS \"n\" WHERE 1 < 2 < 3",
        "q:1:29: Comparisons do not chain. Write two of them, with AND between.
SELECT 1 AS \"n\" WHERE 1 < 2 < 3
                            ^
found: <
expected: UNION, AND, OR, +, -, *, a semicolon or the end of the text
",
    ),
    (
        "SELECT 'Oslo' AS 'n'",
        "q:1:18: Names stand in double quotes, and texts in single ones.
SELECT 'Oslo' AS 'n'
                 ^
found: a text in single quotes
expected: a name in double quotes
",
    ),
    (
        "SELECT 1.5 AS \"n\"",
        "q:1:9: Numbers are whole. None has a point.
SELECT 1.5 AS \"n\"
        ^
found: a dot
expected: an operator or AS
",
    ),
    // Rules of scope.
    (
        "SELECT 1 AS \"n\" FROM \"department\" AS \"d\"",
        "q:1:22: A source of FROM is a table of the schema, or an earlier WITH query.
SELECT 1 AS \"n\" FROM \"department\" AS \"d\"
                     ^
tables: departments and employees
nearest: departments
",
    ),
    // An alias that none has, which is the name of a table, and one that is not.
    (
        "SELECT \"departments\".\"name\" AS \"n\" FROM \"departments\" AS \"d\"",
        "q:1:8: This is a table's name. Write the alias that FROM gives it, as in \"d\".\"name\".
SELECT \"departments\".\"name\" AS \"n\" FROM \"departments\" AS \"d\"
       ^
rule: 3, kept by: SELECT \"d\".\"name\" AS \"n\" FROM \"departments\" AS \"d\"
",
    ),
    (
        "SELECT \"x\".\"name\" AS \"n\" FROM \"departments\" AS \"d\"",
        "q:1:8: The alias before a column is that of a source here, or in a SELECT around this one.
SELECT \"x\".\"name\" AS \"n\" FROM \"departments\" AS \"d\"
       ^
rule: 3, kept by: SELECT \"d\".\"name\" AS \"n\" FROM \"departments\" AS \"d\"
",
    ),
    // A missing column: those of the source, which may be a WITH query, or stand around.
    (
        r#"SELECT "d"."nam" AS "n" FROM "departments" AS "d""#,
        r#"q:1:8: The source has the column: is its name misspelt?
SELECT "d"."nam" AS "n" FROM "departments" AS "d"
       ^
found: "name": text
rule: 4, kept by: SELECT "d"."name" AS "n" FROM "departments" AS "d"
"#,
    ),
    (
        r#"WITH "q" AS (SELECT 1 AS "a", TRUE AS "b") SELECT "q"."c" AS "n" FROM "q" AS "q""#,
        r#"q:1:51: The source has the column: is its name misspelt?
WITH "q" AS (SELECT 1 AS "a", TRUE AS "b") SELECT "q"."c" AS "n" FROM "q" AS "q"
                                                  ^
found: "a": int, "b": bool
rule: 4, kept by: SELECT "d"."name" AS "n" FROM "departments" AS "d"
"#,
    ),
    (
        r#"SELECT (SELECT COUNT(*) WHERE "e"."id" = 1) AS "n" FROM "employees" AS "e""#,
        r#"q:1:31: The source has the column: is its name misspelt?
SELECT (SELECT COUNT(*) WHERE "e"."id" = 1) AS "n" FROM "employees" AS "e"
                              ^
found: "dept": text, "name": text, "salary": int
rule: 4, kept by: SELECT "d"."name" AS "n" FROM "departments" AS "d"
"#,
    ),
    // Operands: of a comparison, of the second operator in a chain, and of NOT.
    (
        r#"SELECT 1 AS "n" FROM "employees" AS "e" WHERE "e"."salary" = '5'"#,
        "\
q:1:60: + - * take ints, AND OR NOT truth values, and a comparison two values of one type.
SELECT 1 AS \"n\" FROM \"employees\" AS \"e\" WHERE \"e\".\"salary\" = '5'
                                                           ^
found: int and text
rule: 5, kept by: SELECT 1 + 2 AS \"n\"
",
    ),
    (
        r#"SELECT "e"."salary" + 1 + "e"."name" AS "n" FROM "employees" AS "e""#,
        "\
q:1:25: + - * take ints, AND OR NOT truth values, and a comparison two values of one type.
SELECT \"e\".\"salary\" + 1 + \"e\".\"name\" AS \"n\" FROM \"employees\" AS \"e\"
                        ^
found: int and text
rule: 5, kept by: SELECT 1 + 2 AS \"n\"
",
    ),
    (
        r#"SELECT 1 AS "n" FROM "employees" AS "e" WHERE NOT "e"."dept""#,
        "\
q:1:47: + - * take ints, AND OR NOT truth values, and a comparison two values of one type.
SELECT 1 AS \"n\" FROM \"employees\" AS \"e\" WHERE NOT \"e\".\"dept\"
                                              ^
found: text
rule: 5, kept by: SELECT 1 + 2 AS \"n\"
",
    ),
    // A condition, and the test of a CASE with its arms.
    (
        r#"SELECT 1 AS "n" FROM "employees" AS "e" WHERE "e"."salary""#,
        r#"q:1:47: WHERE and the test of CASE are truth values, and the arms of CASE have one type.
SELECT 1 AS "n" FROM "employees" AS "e" WHERE "e"."salary"
                                              ^
found: int
rule: 6, kept by: SELECT 1 AS "n" WHERE 1 < 2
"#,
    ),
    (
        r#"SELECT CASE WHEN 1 < 2 THEN 1 ELSE '2' END AS "n""#,
        r#"q:1:8: WHERE and the test of CASE are truth values, and the arms of CASE have one type.
SELECT CASE WHEN 1 < 2 THEN 1 ELSE '2' END AS "n"
       ^
found: bool, int and text
rule: 6, kept by: SELECT 1 AS "n" WHERE 1 < 2
"#,
    ),
    // Two items of one name, of which no type is asked.
    (
        r#"SELECT 1 AS "n", 2 AS "n""#,
        r#"q:1:23: The items of one SELECT have different names.
SELECT 1 AS "n", 2 AS "n"
                      ^
rule: 7, kept by: SELECT 1 AS "m", 2 AS "n"
"#,
    ),
    // SELECTs that differ, the second inside NOT EXISTS.
    (
        r#"SELECT 1 AS "n", 'a' AS "m" UNION ALL SELECT 2 AS "n""#,
        r#"q:1:39: The SELECTs of a UNION ALL have as many items, of the same types in order.
SELECT 1 AS "n", 'a' AS "m" UNION ALL SELECT 2 AS "n"
                                      ^
found: (int, text) and (int)
rule: 8, kept by: SELECT 1 AS "n" UNION ALL SELECT 2 AS "n"
"#,
    ),
    (
        r#"SELECT 1 AS "n" WHERE NOT EXISTS (SELECT 2 AS "m" UNION ALL SELECT TRUE AS "m")"#,
        r#"q:1:61: The SELECTs of a UNION ALL have as many items, of the same types in order.
SELECT 1 AS "n" WHERE NOT EXISTS (SELECT 2 AS "m" UNION ALL SELECT TRUE AS "m")
                                                            ^
found: (int) and (bool)
rule: 8, kept by: SELECT 1 AS "n" UNION ALL SELECT 2 AS "n"
"#,
    ),
    // The summed expression.
    (
        r#"SELECT (SELECT COALESCE(SUM("e"."name"), 0) FROM "employees" AS "e") AS "n""#,
        r#"q:1:29: What SUM adds up is an int.
SELECT (SELECT COALESCE(SUM("e"."name"), 0) FROM "employees" AS "e") AS "n"
                            ^
found: text
rule: 10, kept by: SELECT (SELECT COALESCE(SUM("e"."salary"), 0) FROM "employees" AS "e") AS "n"
"#,
    ),
    // An accepted text: its columns.
    (
        "SELECT 1 AS \"n\", \"d\".\"name\" AS \"m\", 1 < 2 AS \"b\" FROM \"departments\" AS \"d\"",
        "\"n\": int, \"m\": text, \"b\": bool
",
    ),
];

#[test]
fn sql_is_explained(rt: HostRuntime) -> Result<(), Fail> {
    let alloc = rt.alloc();
    for (text, wanted) in &EXPLAINED {
        let made = explained(alloc, text.as_bytes(), 200)?;
        assert!(rt; made.as_slice() == wanted.as_bytes(), "{text}: {made:?}");
    }
    Ok(())
}

// At depth 3 only a count may stand in parentheses.
#[test]
fn depth_of_sql_is_explained(rt: HostRuntime) -> Result<(), Fail> {
    let made = explained(rt.alloc(), b"SELECT (1) AS \"n\"", 3)?;
    let wanted = b"q:1:9: This goes too deep. An SQL text may be 200 levels deep.
SELECT (1) AS \"n\"
        ^
found: a number
expected: SELECT
";
    assert!(rt; made.as_slice() == wanted.as_slice(), "{made:?}");
    Ok(())
}

// One letter is left out; and three or more part the name from each table.
#[test]
fn names_of_tables_are_explained(rt: HostRuntime) -> Result<(), Fail> {
    let alloc = rt.alloc();
    let schema = schema_of(alloc)?;
    let made = explain_table_name(alloc, "employes", &schema)?;
    let wanted = b"No table of the schema has this name.
found: employes
tables: departments and employees
nearest: employees
";
    assert!(rt; made.as_slice() == wanted.as_slice(), "{made:?}");
    let made = explain_table_name(alloc, "tasks", &schema)?;
    let wanted = b"No table of the schema has this name.
found: tasks
tables: departments and employees
";
    assert!(rt; made.as_slice() == wanted.as_slice(), "{made:?}");
    Ok(())
}
