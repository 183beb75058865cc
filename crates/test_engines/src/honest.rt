// What the plain server, the fast one and the crooked one answer: as SQL says, and in the order that each is said
// to have.
ghost use Rattle.std.specs.Prelude.{◌≡◌, ◌<◌, []};

use crate::asked::{ask, shown};
use crate::tables::{PAIRS, load_both, schema};
use fast_engine::FastServer;
use plain_engine::{CrookedServer, PlainServer};
use sql_profile::SqlServer;
use std::alloc::Global;
use std::process::Abort;
use std::test::Fail;

// A text, and its answers by the plain server and the fast one, and by the crooked one.
struct Case {
    text: &'static str,
    answers: [&'static str; 2],
}

const CASES: [Case; 39] = [
    // Ties.
    Case {
        text: r#"SELECT "x"."b" AS "b", ROW_NUMBER() OVER (ORDER BY "x"."a") AS "n" FROM "t" AS "x""#,
        answers: ["1 1 ;2 3 ;3 2 ;", "3 1 ;2 3 ;1 2 ;"],
    },
    Case {
        text: r#"SELECT "x"."b" AS "b", ROW_NUMBER() OVER () AS "n" FROM "t" AS "x""#,
        answers: ["1 1 ;2 2 ;3 3 ;", "3 1 ;2 2 ;1 3 ;"],
    },
    // A WITH query has one list, so that each row meets itself, however its ties are numbered.
    Case {
        text: r#"WITH "w" AS (SELECT "x"."b" AS "b", ROW_NUMBER() OVER () AS "n" FROM "t" AS "x") SELECT ("u"."b" = "v"."b") AS "same" FROM "w" AS "u", "w" AS "v" WHERE ("u"."n" = "v"."n")"#,
        answers: ["true ;true ;true ;", "true ;true ;true ;"],
    },
    // The inner alias hides the outer one: rows with whose `a` no row has the greatest `b`.
    Case {
        text: r#"SELECT "x"."b" AS "b" FROM "t" AS "x" WHERE (NOT EXISTS (SELECT 1 AS "o" FROM "t" AS "y" WHERE (("y"."a" = "x"."a") AND (NOT EXISTS (SELECT 1 AS "o" FROM "t" AS "x" WHERE (("x"."b" > "y"."b") AND (NOT EXISTS (SELECT 1 AS "o" FROM "t" AS "y" WHERE ("y"."b" > "x"."b")))))))))"#,
        answers: ["2 ;", "2 ;"],
    },
    // A table without rows.
    Case {
        text: r#"SELECT "x"."a" AS "a", ROW_NUMBER() OVER () AS "n" FROM "e" AS "x", "t" AS "y""#,
        answers: ["", ""],
    },
    // No FROM.
    Case {
        text: r#"SELECT 7 AS "s", ROW_NUMBER() OVER () AS "n""#,
        answers: ["7 1 ;", "7 1 ;"],
    },
    Case {
        text: r#"SELECT 7 AS "s" WHERE FALSE"#,
        answers: ["", ""],
    },
    // Equal rows.
    Case {
        text: r#"SELECT "x"."a" AS "a" FROM "t" AS "x" WHERE ("x"."a" = 5)"#,
        answers: ["5 ;5 ;", "5 ;5 ;"],
    },
    // A sum past 2^63 - 1.
    Case {
        text: r#"SELECT (9223372036854775807 + "x"."b") AS "s" FROM "t" AS "x" WHERE ("x"."b" = 1)"#,
        answers: ["-9223372036854775808 ;", "-9223372036854775808 ;"],
    },
    // A condition on the first source and the last.
    Case {
        text: r#"SELECT "x"."b" AS "b", "y"."b" AS "c", "z"."b" AS "d" FROM "t" AS "x", "t" AS "y", "t" AS "z" WHERE (("x"."a" = "z"."a") AND ("z"."b" > "x"."b"))"#,
        answers: ["1 1 3 ;1 2 3 ;1 3 3 ;", "1 3 3 ;1 2 3 ;1 1 3 ;"],
    },
    // A third source that joins the first two, and stands behind them.
    Case {
        text: r#"SELECT "x"."b" AS "b", "y"."b" AS "c", "z"."b" AS "d"
            FROM "t" AS "x", "t" AS "y", "t" AS "z"
            WHERE (("z"."a" = "x"."a") AND ("z"."b" = "y"."b"))"#,
        answers: [
            "1 1 1 ;1 3 3 ;2 2 2 ;3 1 1 ;3 3 3 ;",
            "3 3 3 ;3 1 1 ;2 2 2 ;1 3 3 ;1 1 1 ;",
        ],
    },
    // No equality.
    Case {
        text: r#"SELECT "x"."b" AS "b", "y"."b" AS "c" FROM "t" AS "x", "t" AS "y" WHERE ("x"."b" < "y"."b")"#,
        answers: ["1 2 ;1 3 ;2 3 ;", "2 3 ;1 3 ;1 2 ;"],
    },
    // An equality with a constant.
    Case {
        text: r#"SELECT "x"."b" AS "b", "y"."a" AS "c" FROM "t" AS "x", "t" AS "y" WHERE (2 = "y"."b")"#,
        answers: ["1 6 ;2 6 ;3 6 ;", "3 6 ;2 6 ;1 6 ;"],
    },
    // A WITH query over another one, whose columns are columns of a table at places.
    Case {
        text: r#"WITH "w" AS (SELECT "x"."a" AS "a", "x"."b" AS "b" FROM "t" AS "x"
            WHERE ("x"."b" > 1)),
            "v" AS (SELECT "u"."b" AS "b", "u"."a" AS "a" FROM "w" AS "u", "w" AS "z"
            WHERE ("u"."b" > "z"."b"))
            SELECT "p"."b" AS "b", "p"."a" AS "a", "q"."b" AS "c" FROM "v" AS "p", "w" AS "q""#,
        answers: ["3 5 2 ;3 5 3 ;", "3 5 2 ;3 5 3 ;"],
    },
    // Truth values as keys.
    Case {
        text: r#"WITH "w" AS (SELECT ("x"."a" = 5) AS "k", "x"."b" AS "b" FROM "t" AS "x") SELECT "u"."b" AS "b", "v"."b" AS "c" FROM "w" AS "u", "w" AS "v" WHERE ("u"."k" = "v"."k")"#,
        answers: ["1 1 ;1 3 ;2 2 ;3 1 ;3 3 ;", "1 1 ;1 3 ;2 2 ;3 1 ;3 3 ;"],
    },
    // Texts as keys that share a long beginning.
    Case {
        text: r#"WITH "w" AS (SELECT 'the same long beginning, one' AS "k", "x"."b" AS "b" FROM "t" AS "x" WHERE ("x"."b" < 3) UNION ALL SELECT 'the same long beginning, two' AS "k", "x"."b" AS "b" FROM "t" AS "x" WHERE ("x"."b" > 1)) SELECT "u"."b" AS "b", "v"."b" AS "c" FROM "w" AS "u", "w" AS "v" WHERE (("u"."k" = "v"."k") AND ("u"."b" < "v"."b"))"#,
        answers: ["1 2 ;2 3 ;", "2 3 ;1 2 ;"],
    },
    // Two equalities of one pair of sources.
    Case {
        text: r#"SELECT "x"."b" AS "b" FROM "t" AS "x", "t" AS "y" WHERE (("x"."a" = "y"."a") AND ("x"."b" = "y"."b"))"#,
        answers: ["1 ;2 ;3 ;", "3 ;2 ;1 ;"],
    },
    // Keys of three types: each row meets itself alone.
    Case {
        text: r#"WITH "w" AS (SELECT 'one' AS "k", ("x"."a" = 5) AS "f", "x"."b" AS "b" FROM "t" AS "x" UNION ALL SELECT 'two' AS "k", ("x"."a" = 6) AS "f", "x"."b" AS "b" FROM "t" AS "x") SELECT "u"."b" AS "b", "v"."b" AS "c" FROM "w" AS "u", "w" AS "v" WHERE ((("u"."f" = "v"."f") AND ("u"."k" = "v"."k")) AND ("v"."b" = "u"."b"))"#,
        answers: [
            "1 1 ;2 2 ;3 3 ;1 1 ;2 2 ;3 3 ;",
            "1 1 ;2 2 ;3 3 ;1 1 ;2 2 ;3 3 ;",
        ],
    },
    // A sum as the key of the second source, and one that the first source gives, of a list with
    // equal cells.
    Case {
        text: r#"SELECT "x"."b" AS "b", "y"."b" AS "c" FROM "t" AS "x", "t" AS "y" WHERE ("x"."a" = ("y"."b" + 4))"#,
        answers: ["1 1 ;2 2 ;3 1 ;", "3 1 ;2 2 ;1 1 ;"],
    },
    Case {
        text: r#"WITH "w" AS (SELECT "x"."a" AS "a", "x"."b" AS "b" FROM "t" AS "x") SELECT "x"."b" AS "b", "u"."b" AS "c" FROM "t" AS "x", "w" AS "u" WHERE ("u"."a" = ("x"."a" + 0))"#,
        answers: ["1 1 ;1 3 ;2 2 ;3 1 ;3 3 ;", "3 1 ;3 3 ;2 2 ;1 1 ;1 3 ;"],
    },
    // Two keys, which no row has together.
    Case {
        text: r#"SELECT "x"."b" AS "b" FROM "t" AS "x", "t" AS "y" WHERE (("x"."a" = "y"."a") AND (("x"."b" + 1) = "y"."b"))"#,
        answers: ["", ""],
    },
    // A key from outside, which some rows match.
    Case {
        text: r#"SELECT "x"."b" AS "b" FROM "t" AS "x" WHERE (NOT EXISTS (SELECT 1 AS "o" FROM "t" AS "y" WHERE (("y"."a" = "x"."a") AND ("y"."b" > "x"."b"))))"#,
        answers: ["2 ;3 ;", "3 ;2 ;"],
    },
    // A key from outside, which no row matches.
    Case {
        text: r#"SELECT "x"."b" AS "b" FROM "t" AS "x" WHERE (NOT EXISTS (SELECT 1 AS "o" FROM "t" AS "y" WHERE ("x"."a" = "y"."b")))"#,
        answers: ["1 ;2 ;3 ;", "3 ;2 ;1 ;"],
    },
    // A union of joins.
    Case {
        text: r#"SELECT "x"."b" AS "b" FROM "t" AS "x", "t" AS "y" WHERE (("x"."b" = "y"."b") AND ("x"."a" = 6)) UNION ALL SELECT "x"."b" AS "b" FROM "t" AS "x", "t" AS "y" WHERE (("x"."a" = "y"."a") AND ("y"."b" = 3))"#,
        answers: ["2 ;1 ;3 ;", "2 ;3 ;1 ;"],
    },
    // Counts by a key from outside, and sums that name a column from outside.
    Case {
        text: r#"SELECT "x"."b" AS "b", (SELECT COUNT(*) FROM "t" AS "y" WHERE ("y"."a" = "x"."a")) AS "n" FROM "t" AS "x""#,
        answers: ["1 2 ;2 1 ;3 2 ;", "3 2 ;2 1 ;1 2 ;"],
    },
    Case {
        text: r#"SELECT "x"."b" AS "b", (SELECT COALESCE(SUM(("y"."b" + "x"."b")), 0) FROM "t" AS "y" WHERE ("y"."a" = "x"."a")) AS "s" FROM "t" AS "x""#,
        answers: ["1 6 ;2 4 ;3 10 ;", "3 10 ;2 4 ;1 6 ;"],
    },
    // A key of two columns.
    Case {
        text: r#"SELECT "x"."b" AS "b", (SELECT COUNT(*) FROM "t" AS "y", "t" AS "z" WHERE (("y"."a" = "x"."a") AND ("z"."b" = "x"."b"))) AS "n" FROM "t" AS "x""#,
        answers: ["1 2 ;2 1 ;3 2 ;", "3 2 ;2 1 ;1 2 ;"],
    },
    // A key from outside for the last source alone, which is the key of the one before it.
    Case {
        text: r#"SELECT "x"."b" AS "b", (SELECT COUNT(*) FROM "t" AS "y", "t" AS "z"
            WHERE (("z"."b" = "x"."b") AND ("y"."a" = "z"."a"))) AS "n" FROM "t" AS "x""#,
        answers: ["1 2 ;2 1 ;3 2 ;", "3 2 ;2 1 ;1 2 ;"],
    },
    Case {
        text: r#"SELECT "x"."b" AS "b" FROM "t" AS "x" WHERE (NOT EXISTS (SELECT 1 AS "o"
            FROM "t" AS "y", "t" AS "z"
            WHERE ((("z"."b" = "x"."b") AND ("y"."a" = "z"."a")) AND ("y"."b" > "z"."b"))))"#,
        answers: ["2 ;3 ;", "3 ;2 ;"],
    },
    // A key from outside, and a condition on another source there.
    Case {
        text: r#"SELECT "x"."b" AS "b", "z"."b" AS "c", (SELECT COUNT(*) FROM "t" AS "y" WHERE (("y"."a" = "x"."a") AND ("y"."b" <= "z"."b"))) AS "n" FROM "t" AS "x", "t" AS "z" WHERE ("x"."b" < "z"."b")"#,
        answers: ["1 2 1 ;1 3 2 ;2 3 1 ;", "2 3 1 ;1 3 2 ;1 2 1 ;"],
    },
    // No key: the rows with a smaller number.
    Case {
        text: r#"SELECT "x"."a" AS "a", (SELECT COUNT(*) FROM "t" AS "y" WHERE ("y"."b" < "x"."b")) AS "n" FROM "t" AS "x""#,
        answers: ["5 0 ;6 1 ;5 2 ;", "5 2 ;6 1 ;5 0 ;"],
    },
    // Nothing from outside: all pairs, no row, no source, and no source with a condition.
    Case {
        text: r#"SELECT (SELECT COUNT(*) FROM "t" AS "y", "t" AS "z") AS "n", (SELECT COUNT(*) FROM "e" AS "y") AS "m", (SELECT COUNT(*)) AS "o", (SELECT COUNT(*) WHERE FALSE) AS "p" FROM "t" AS "x" WHERE ("x"."b" = 2)"#,
        answers: ["9 0 1 0 ;", "9 0 1 0 ;"],
    },
    // A sum of none, and one that wraps: three times 2^63 - 1.
    Case {
        text: r#"SELECT (SELECT COALESCE(SUM("y"."a"), 0) FROM "e" AS "y") AS "s", (SELECT COALESCE(SUM((9223372036854775807 + ("y"."b" * 0))), 0) FROM "t" AS "y") AS "w""#,
        answers: ["0 9223372036854775805 ;", "0 9223372036854775805 ;"],
    },
    // A source with the alias of the one around.
    Case {
        text: r#"SELECT "x"."b" AS "b", (SELECT COUNT(*) FROM "t" AS "x" WHERE ("x"."a" = 5)) AS "n" FROM "t" AS "x""#,
        answers: ["1 2 ;2 2 ;3 2 ;", "3 2 ;2 2 ;1 2 ;"],
    },
    // A count in WHERE, as an order key, inside NOT EXISTS, and in a WITH query whose rows a sum adds.
    Case {
        text: r#"SELECT "x"."b" AS "b" FROM "t" AS "x" WHERE ((SELECT COUNT(*) FROM "t" AS "y" WHERE ("y"."a" = "x"."a")) > 1)"#,
        answers: ["1 ;3 ;", "3 ;1 ;"],
    },
    Case {
        text: r#"SELECT "x"."b" AS "b", ROW_NUMBER() OVER (ORDER BY (SELECT COUNT(*) FROM "t" AS "y" WHERE ("y"."a" = "x"."a")), "x"."b") AS "n" FROM "t" AS "x""#,
        answers: ["1 2 ;2 1 ;3 3 ;", "3 3 ;2 1 ;1 2 ;"],
    },
    Case {
        text: r#"SELECT "x"."b" AS "b" FROM "t" AS "x" WHERE (NOT EXISTS (SELECT 1 AS "o" FROM "t" AS "y" WHERE (("y"."b" > "x"."b") AND ((SELECT COUNT(*) FROM "t" AS "z" WHERE ("z"."a" = "y"."a")) = 1))))"#,
        answers: ["2 ;3 ;", "3 ;2 ;"],
    },
    Case {
        text: r#"WITH "w" AS (SELECT (SELECT COUNT(*) FROM "t" AS "y" WHERE ("y"."a" = "x"."a")) AS "n" FROM "t" AS "x") SELECT (SELECT COALESCE(SUM("u"."n"), 0) FROM "w" AS "u") AS "s""#,
        answers: ["5 ;", "5 ;"],
    },
    // A count inside the value of a sum: of each row with the number of a row, the rows with its number.
    Case {
        text: r#"SELECT "x"."b" AS "b", (SELECT COALESCE(SUM((SELECT COUNT(*) FROM "t" AS "z" WHERE ("z"."a" = "y"."a"))), 0) FROM "t" AS "y" WHERE ("y"."a" = "x"."a")) AS "s" FROM "t" AS "x""#,
        answers: ["1 4 ;2 1 ;3 4 ;", "3 4 ;2 1 ;1 4 ;"],
    },
];

fn check(
    rt: &impl Abort,
    alloc: Global,
    server: &mut Box<dyn SqlServer>,
    which: usize,
) -> Result<(), Fail>
    requires empty { loaded server.old ≡ [] }
    requires which { which < 2 }
{
    let schema = schema(alloc)?;
    load_both(alloc, server, PAIRS, &[])?;
    for case in &CASES {
        let answer = ask(alloc, server, &schema, case.text)?;
        assert_eq!(rt;
            shown(alloc, &answer.rows)?.as_str(),
            case.answers[which],
            "{}",
            case.text
        );
    }
    Ok(())
}

#[test]
fn plain(rt: HostRuntime) -> Result<(), Fail> {
    let alloc = rt.alloc();
    let mut server: Box<dyn SqlServer> = Box::new(alloc, PlainServer::new(alloc))?;
    check(&rt, alloc, &mut server, 0)
}

#[test]
fn fast(rt: HostRuntime) -> Result<(), Fail> {
    let alloc = rt.alloc();
    let mut server: Box<dyn SqlServer> = Box::new(alloc, FastServer::new(alloc))?;
    check(&rt, alloc, &mut server, 0)
}

#[test]
fn crooked(rt: HostRuntime) -> Result<(), Fail> {
    let alloc = rt.alloc();
    let mut server: Box<dyn SqlServer> = Box::new(alloc, CrookedServer::new(alloc))?;
    check(&rt, alloc, &mut server, 1)
}
