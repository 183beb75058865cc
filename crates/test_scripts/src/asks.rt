// Queries with the scripts that ask their texts, written by hand.
use database_scripts::{Database, ask_script};
use nq_model::{List, Memory, Ty};
use nq_parser::parse;
use nq_types::check;
use schema_reader::read_schema;
use std::alloc::Global;
use std::process::Abort;
use std::test::Fail;

const POSTGRES: &str = r#"\set ON_ERROR_STOP on
\encoding UTF8
BEGIN ISOLATION LEVEL REPEATABLE READ READ ONLY;
"#;

const SQLITE: &str = r#".bail on
.headers off
.mode csv
.separator , "\n"
BEGIN;
"#;

// The texts of a query, a line for each; here they stand for longer ones.
const ONE: &str = "SELECT 1";

const THREE: &str = "SELECT 1\nSELECT 'a' AS \"c1\"\nSELECT ':x' AS \"c1\"";

// A query, its texts, a folder, and what psql and sqlite3 are told, without the beginning and the
// end of the script.
const CASES: [(&str, &str, &str, &str, &str); 7] = [
    (
        "[: (department: text, people: [(name: text, tasks: [text])])]",
        THREE,
        "answers",
        r#"COPY (SELECT 1) TO STDOUT WITH (FORMAT csv, HEADER true) \g './answers/1.csv'
COPY (SELECT 'a' AS "c1") TO STDOUT WITH (FORMAT csv, HEADER true) \g './answers/2.csv'
COPY (SELECT ':x' AS "c1") TO STDOUT WITH (FORMAT csv, HEADER true) \g './answers/3.csv'
"#,
        r#".output "./answers/1.csv"
.print ot,on,c1,c2,c3
SELECT "ot", "on", "c1", "c2", "c3" FROM (SELECT 1);
.output "./answers/2.csv"
.print ot,on,c1,c2,c3
SELECT "ot", "on", "c1", "c2", "c3" FROM (SELECT 'a' AS "c1");
.output "./answers/3.csv"
.print ot,on,c1
SELECT "ot", "on", "c1" FROM (SELECT ':x' AS "c1");
"#,
    ),
    (
        "[: (client: bool, name: text, paid: bool, size: int)]",
        ONE,
        "/a b",
        r#"COPY (SELECT 1) TO STDOUT WITH (FORMAT csv, HEADER true) \g '/a b/1.csv'
"#,
        r#".output "/a b/1.csv"
.print ot,on,c1,c2,c3,c4
SELECT "ot", "on", CASE "c1" WHEN 1 THEN 'true' WHEN 0 THEN 'false' END, "c2", CASE "c3" WHEN 1 THEN 'true' WHEN 0 THEN 'false' END, "c4" FROM (SELECT 1);
"#,
    ),
    (
        "[: ()]",
        ONE,
        "|it's a \"b\\\nc",
        r#"COPY (SELECT 1) TO STDOUT WITH (FORMAT csv, HEADER true) \g './|it\'s a "b\\\nc/1.csv'
"#,
        r#".output "./|it's a \"b\\\nc/1.csv"
.print ot,on
SELECT "ot", "on" FROM (SELECT 1);
"#,
    ),
    (
        "[: int]",
        ONE,
        "",
        r#"COPY (SELECT 1) TO STDOUT WITH (FORMAT csv, HEADER true) \g './/1.csv'
"#,
        r#".output ".//1.csv"
.print ot,on,c1
SELECT "ot", "on", "c1" FROM (SELECT 1);
"#,
    ),
    (
        "[: bool]",
        ONE,
        "~",
        r#"COPY (SELECT 1) TO STDOUT WITH (FORMAT csv, HEADER true) \g './~/1.csv'
"#,
        r#".output "./~/1.csv"
.print ot,on,c1
SELECT "ot", "on", CASE "c1" WHEN 1 THEN 'true' WHEN 0 THEN 'false' END FROM (SELECT 1);
"#,
    ),
    // More texts than paths, and more paths than texts.
    (
        "[: int]",
        THREE,
        "a",
        r#"COPY (SELECT 1) TO STDOUT WITH (FORMAT csv, HEADER true) \g './a/1.csv'
"#,
        r#".output "./a/1.csv"
.print ot,on,c1
SELECT "ot", "on", "c1" FROM (SELECT 1);
"#,
    ),
    (
        "[: [[int]]]",
        ONE,
        "a",
        r#"COPY (SELECT 1) TO STDOUT WITH (FORMAT csv, HEADER true) \g './a/1.csv'
"#,
        r#".output "./a/1.csv"
.print ot,on,c1,c2
SELECT "ot", "on", "c1", "c2" FROM (SELECT 1);
"#,
    ),
];

// The type of a query over no table.
fn type_of(alloc: Global, query: &str) -> Result<Ty, Memory> {
    let Ok(schema) = read_schema(alloc, b"") else {
        return Err(Memory);
    };
    let Ok(term) = parse(alloc, query.as_bytes(), 200) else {
        return Err(Memory);
    };
    match check(alloc, &schema, &term) {
        Ok(ty) => Ok(ty),
        Err(_) => Err(Memory),
    }
}

// The lines of a text, each as bytes.
fn lines_of(alloc: Global, text: &str) -> Result<List<List<u8>>, Memory> {
    let mut lines = List::new(alloc);
    for line in text.split('\n') {
        lines.push(List::from_slice(alloc, line.as_bytes())?)?;
    }
    Ok(lines)
}

#[test]
fn texts_are_asked(rt: HostRuntime) -> Result<(), Fail> {
    let alloc = rt.alloc();
    for (query, texts, folder, postgres, sqlite) in &CASES {
        let ty = type_of(alloc, query)?;
        let texts = lines_of(alloc, texts)?;
        let texts = texts.as_slice();
        let folder = folder.as_bytes();
        let psql = format!(in alloc; "{POSTGRES}{postgres}COMMIT;\n")?;
        let script = ask_script(alloc, Database::Postgres, folder, &ty, texts)?;
        assert!(rt; script.as_slice() == psql.as_bytes(), "psql: {query}");
        let sqlite3 = format!(in alloc; "{SQLITE}{sqlite}COMMIT;\n.output\n")?;
        let script = ask_script(alloc, Database::Sqlite, folder, &ty, texts)?;
        assert!(rt; script.as_slice() == sqlite3.as_bytes(), "sqlite3: {query}");
    }
    Ok(())
}
