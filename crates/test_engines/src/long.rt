// Texts with 3,000 parts in one sum or condition, with the answers of each server.
ghost use Rattle.std.specs.Prelude.{◌≡◌, ◌<◌, []};
ghost use Rattle.sql_profile.specs.Scope.{shapes_of, shapes_of_schema};

use crate::asked::{ask, shown};
use crate::tables::{PAIRS, load_both, schema};
use fast_engine::FastServer;
use nq_model::{Memory, Schema};
use plain_engine::{CrookedServer, PlainServer};
use sql_profile::{ServerFault, SqlServer};
use std::alloc::Global;
use std::process::Abort;
use std::test::Fail;

// How many parts stand between the first of a text and the last.
const BETWEEN: usize = 2998;

// The rows of the second table: two have the number 5, and none 6.
const TWO: &[(i64, i64)] = &[(5, 1), (5, 2)];

// A text by the piece with its first part, the part that stands between and the piece with its last
// part; and its answers by the plain server and the fast one, and by the crooked one.
struct Case {
    first: &'static str,
    between: &'static str,
    last: &'static str,
    answers: [&'static str; 2],
}

const CASES: [Case; 9] = [
    // Sums of ones, of ones and a column, and of columns: 1 and 2,999 times 5 are 14,996.
    Case {
        first: r#"SELECT 1"#,
        between: r#" + 1"#,
        last: r#" + 1 AS "n""#,
        answers: ["3000 ;", "3000 ;"],
    },
    Case {
        first: r#"SELECT 1"#,
        between: r#" + 1"#,
        last: r#" + "x"."b" AS "n" FROM "t" AS "x""#,
        answers: ["3000 ;3001 ;3002 ;", "3002 ;3001 ;3000 ;"],
    },
    Case {
        first: r#"SELECT "x"."b""#,
        between: r#" + "x"."a""#,
        last: r#" + "x"."a" AS "n" FROM "t" AS "x""#,
        answers: ["14996 ;17996 ;14998 ;", "14998 ;17996 ;14996 ;"],
    },
    // Under AND the last condition drops a row that all before it keep; under OR the first keeps a
    // row, and the last another.
    Case {
        first: r#"SELECT "x"."b" AS "b" FROM "t" AS "x" WHERE "x"."a" = 5"#,
        between: r#" AND "x"."a" = 5"#,
        last: r#" AND "x"."b" > 1"#,
        answers: ["3 ;", "3 ;"],
    },
    Case {
        first: r#"SELECT "x"."b" AS "b" FROM "t" AS "x" WHERE "x"."b" = 1"#,
        between: r#" OR "x"."b" = 4"#,
        last: r#" OR "x"."b" = 3"#,
        answers: ["1 ;3 ;", "3 ;1 ;"],
    },
    // Conditions on two sources.
    Case {
        first: r#"SELECT "x"."b" AS "b", "y"."b" AS "c" FROM "t" AS "x", "e" AS "y" WHERE "x"."a" = "y"."a""#,
        between: r#" AND "x"."a" = "y"."a""#,
        last: r#" AND "x"."b" >= "y"."b""#,
        answers: ["1 1 ;3 1 ;3 2 ;", "3 2 ;3 1 ;1 1 ;"],
    },
    Case {
        first: r#"SELECT "x"."b" AS "b", "y"."b" AS "c" FROM "t" AS "x", "e" AS "y" WHERE "x"."b" < "y"."b""#,
        between: r#" OR "x"."b" > 3"#,
        last: r#" OR "x"."a" > 5"#,
        answers: ["1 2 ;2 1 ;2 2 ;", "2 2 ;2 1 ;1 2 ;"],
    },
    // Scalar queries, each a count of the two rows, or of those with the number of the row around.
    Case {
        first: r#"SELECT (SELECT COUNT(*) FROM "e" AS "y")"#,
        between: r#" + (SELECT COUNT(*) FROM "e" AS "y")"#,
        last: r#" + (SELECT COUNT(*) FROM "e" AS "y") AS "n""#,
        answers: ["6000 ;", "6000 ;"],
    },
    Case {
        first: r#"SELECT "x"."b""#,
        between: r#" + (SELECT COUNT(*) FROM "e" AS "y" WHERE "y"."a" = "x"."a")"#,
        last: r#" + (SELECT COUNT(*) FROM "e" AS "y" WHERE "y"."a" = "x"."a") AS "n" FROM "t" AS "x""#,
        answers: ["5999 ;2 ;6001 ;", "6001 ;2 ;5999 ;"],
    },
];

// The text of a case.
fn text_of(alloc: Global, case: &Case) -> Result<String, Memory> {
    let mut text = String::from_str(alloc, case.first)?;
    for _ in 0..BETWEEN {
        text.push_str(case.between)?;
    }
    text.push_str(case.last)?;
    Ok(text)
}

// What a server answers to the text of a case.
fn answered(
    alloc: Global,
    server: &mut Box<dyn SqlServer>,
    schema: &Schema,
    case: &Case,
) -> Result<String, ServerFault>
    requires { shapes_of (loaded server.old) ≡ shapes_of_schema schema.now.tables }
    ensures { loaded server.new ≡ loaded server.old }
{
    let text = text_of(alloc, case)?;
    let answer = ask(alloc, server, schema, text.as_str())?;
    Ok(shown(alloc, &answer.rows)?)
}

fn check(
    rt: &impl Abort,
    alloc: Global,
    server: &mut Box<dyn SqlServer>,
    which: usize,
) -> Result<(), Fail>
    requires empty { loaded server.old ≡ [] }
    requires which { which < 2 }
{
    let schema = schema(alloc)?;
    load_both(alloc, server, PAIRS, TWO)?;
    for case in &CASES {
        let shown = answered(alloc, server, &schema, case)?;
        assert_eq!(rt; shown.as_str(), case.answers[which], "{}", case.between);
    }
    Ok(())
}

#[test]
fn plain_answers_long_texts(rt: HostRuntime) -> Result<(), Fail> {
    let alloc = rt.alloc();
    let mut server: Box<dyn SqlServer> = Box::new(alloc, PlainServer::new(alloc))?;
    check(&rt, alloc, &mut server, 0)
}

#[test]
fn fast_answers_long_texts(rt: HostRuntime) -> Result<(), Fail> {
    let alloc = rt.alloc();
    let mut server: Box<dyn SqlServer> = Box::new(alloc, FastServer::new(alloc))?;
    check(&rt, alloc, &mut server, 0)
}

#[test]
fn crooked_answers_long_texts(rt: HostRuntime) -> Result<(), Fail> {
    let alloc = rt.alloc();
    let mut server: Box<dyn SqlServer> = Box::new(alloc, CrookedServer::new(alloc))?;
    check(&rt, alloc, &mut server, 1)
}
