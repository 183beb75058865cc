// Texts that the fast server answers in a moment, and that do not end where every combination is tried or a WITH
// query is computed at each use.
use crate::asked::{ask, shown};
use crate::tables::{load_both, schema};
use fast_engine::FastServer;
use nq_model::{CellRef, List, Memory, Schema};
use rows::Rows;
use sql_profile::SqlServer;
use std::alloc::Global;
use std::hash::{FoldHasher, Hash, Hasher};
use std::test::Fail;

const COUNT: usize = 200_000;

const HALF: usize = COUNT / 2;

// Each row meets itself.
const JOINED: &str =
    r#"SELECT "x"."a" AS "a" FROM "t" AS "x", "t" AS "y" WHERE ("x"."a" = "y"."a")"#;

// The same by two equalities, of which the first holds of all rows, and by a sum on either side.
const JOINED_BY_BOTH: &str =
    r#"SELECT "x"."a" AS "a" FROM "t" AS "x", "t" AS "y" WHERE (("x"."b" = "y"."b") AND ("x"."a" = "y"."a"))"#;

const JOINED_BY_SUM: &str =
    r#"SELECT "x"."a" AS "a" FROM "t" AS "x", "t" AS "y" WHERE ("y"."a" = ("x"."a" + 0))"#;

const JOINED_BY_OWN_SUM: &str =
    r#"SELECT "x"."a" AS "a" FROM "t" AS "x", "t" AS "y" WHERE ("x"."a" = ("y"."a" + 0))"#;

// The same by a third source, which alone joins the first two and stands behind them.
const JOINED_BY_THE_LAST: &str = r#"SELECT "x"."a" AS "a" FROM "t" AS "x", "t" AS "y", "t" AS "z"
    WHERE (("z"."a" = "x"."a") AND ("y"."a" = "z"."a"))"#;

// The rows that the other table has too.
const SHARED: &str = r#"SELECT "x"."a" AS "a" FROM "t" AS "x", "e" AS "y"
    WHERE (("x"."a" = "y"."a") AND ("x"."b" = "y"."b"))"#;

// The rows that meet none of the other table.
const ALONE: &str =
    r#"SELECT "x"."a" AS "a" FROM "t" AS "x" WHERE (NOT EXISTS (SELECT 1 AS "o" FROM "e" AS "y" WHERE ("y"."a" = "x"."a")))"#;

// Every row, as often as there are rows in the other table whose number is below 2: it has one, the first.
const LAST_ALONE: &str =
    r#"SELECT "x"."a" AS "a" FROM "t" AS "x", "t" AS "y", "e" AS "z" WHERE (("z"."a" < 2) AND ("x"."a" = "y"."a"))"#;

// The same row of the other table, by OR, by NOT and by a sum.
const LAST_BY_OR: &str =
    r#"SELECT "x"."a" AS "a" FROM "t" AS "x", "t" AS "y", "e" AS "z" WHERE ((("z"."a" < 1) OR ("z"."a" < 2)) AND ("x"."a" = "y"."a"))"#;

const LAST_BY_NOT: &str =
    r#"SELECT "x"."a" AS "a" FROM "t" AS "x", "t" AS "y", "e" AS "z" WHERE ((NOT ("z"."a" > 1)) AND ("x"."a" = "y"."a"))"#;

const LAST_BY_SUM: &str =
    r#"SELECT "x"."a" AS "a" FROM "t" AS "x", "t" AS "y", "e" AS "z" WHERE ((("z"."a" + 1) < 3) AND ("x"."a" = "y"."a"))"#;

// The one row of the other table that meets none of this one.
const LAST_BY_QUERY: &str =
    r#"SELECT "x"."a" AS "a" FROM "t" AS "x", "t" AS "y", "e" AS "z" WHERE ((NOT EXISTS (SELECT 1 AS "o" FROM "t" AS "u" WHERE ("u"."a" = "z"."a"))) AND ("x"."a" = "y"."a"))"#;

// Every row, since the number of that row is below none.
const INNER_BY_QUERY: &str =
    r#"SELECT "x"."a" AS "a" FROM "t" AS "x" WHERE (NOT EXISTS (SELECT 1 AS "o" FROM "t" AS "y", "e" AS "z" WHERE ((("y"."a" = "x"."a") AND ("z"."a" < "y"."a")) AND (NOT EXISTS (SELECT 1 AS "o" FROM "t" AS "u" WHERE ("u"."a" = "z"."a"))))))"#;

// The rows whose number is not below 100, since the other table has rows.
const AROUND_ALONE: &str =
    r#"SELECT "x"."a" AS "a" FROM "t" AS "x" WHERE (NOT EXISTS (SELECT 1 AS "o" FROM "e" AS "y" WHERE ("x"."a" < 100)))"#;

// Every row, where both tables have even numbers alone: then no number is one more than another.
const NONE_MEET: &str = r#"SELECT "x"."a" AS "a" FROM "t" AS "x"
WHERE (NOT EXISTS (SELECT 1 AS "o" FROM "t" AS "y", "e" AS "z" WHERE ("y"."a" = ("z"."a" + 1))))"#;

// Every row again: one source alone is tied to the row, and stands behind the other.
const NONE_BEHIND: &str = r#"SELECT "x"."a" AS "a" FROM "t" AS "x"
WHERE (NOT EXISTS (SELECT 1 AS "o" FROM "t" AS "y", "e" AS "z"
WHERE (("z"."a" = "x"."a") AND ("y"."a" = ("z"."a" + 1)))))"#;

// Each row with the count of the rows of its number, and with the sum of their numbers.
const COUNTED: &str =
    r#"SELECT ("x"."a" + (SELECT COUNT(*) FROM "t" AS "y" WHERE ("y"."a" = "x"."a"))) AS "a" FROM "t" AS "x""#;

const SUMMED: &str =
    r#"SELECT (SELECT COALESCE(SUM("y"."a"), 0) FROM "t" AS "y" WHERE ("y"."a" = "x"."a")) AS "a" FROM "t" AS "x""#;

// The rows whose number one row of the other table has.
const COUNTED_ONCE: &str =
    r#"SELECT "x"."a" AS "a" FROM "t" AS "x" WHERE ((SELECT COUNT(*) FROM "e" AS "y" WHERE ("y"."a" = "x"."a")) = 1)"#;

// The same rows by a count over both tables, of which the one that is tied to the row comes last.
const COUNTED_BEHIND: &str = r#"SELECT "x"."a" AS "a" FROM "t" AS "x"
WHERE ((SELECT COUNT(*) FROM "e" AS "z", "t" AS "y"
WHERE (("z"."a" = "y"."a") AND ("y"."a" = "x"."a"))) = 1)"#;

// All rows have one key: each number with the count of all, and with as great a sum.
const COUNTED_AGAIN: &str =
    r#"SELECT ("x"."a" + (SELECT COUNT(*) FROM "t" AS "y" WHERE ("y"."b" = "x"."b"))) AS "a" FROM "t" AS "x""#;

const SUMMED_AGAIN: &str =
    r#"SELECT ("x"."a" + (SELECT COALESCE(SUM(("y"."b" + 1)), 0) FROM "t" AS "y" WHERE ("y"."b" = "x"."b"))) AS "a" FROM "t" AS "x""#;

// The same without a condition.
const ALL_COUNTED: &str =
    r#"SELECT ("x"."a" + (SELECT COUNT(*) FROM "t" AS "y")) AS "a" FROM "t" AS "x""#;

// The rows whose number is below 3, each with a count of all rows of the other table: an item, a
// condition, inside another total, behind a test, over joined sources, inside another query, and
// behind parts that settle AND and OR. A count takes a step for each of those rows, and is asked
// for by the three alone.
const COUNTED_BY_FEW: &str = r#"SELECT
("x"."a" + (SELECT COUNT(*) FROM "t" AS "y", "e" AS "z" WHERE ("y"."a" = "x"."a"))) AS "a"
FROM "t" AS "x" WHERE ("x"."a" < 3)"#;

const TRIED_BY_FEW: &str = r#"SELECT "x"."a" AS "a" FROM "t" AS "x" WHERE (("x"."a" < 3)
AND ((SELECT COUNT(*) FROM "t" AS "y", "e" AS "z" WHERE ("y"."a" = "x"."a")) = 100000))"#;

const SUMMED_BY_FEW: &str = r#"SELECT ("x"."a" + (SELECT COALESCE(SUM(
(SELECT COUNT(*) FROM "t" AS "y", "e" AS "z" WHERE ("y"."a" = "x"."a"))), 0)
FROM "t" AS "w" WHERE ("w"."a" = "x"."a"))) AS "a" FROM "t" AS "x" WHERE ("x"."a" < 3)"#;

const CHOSEN_BY_FEW: &str = r#"SELECT "x"."a" AS "a" FROM "t" AS "x"
WHERE (CASE WHEN ("x"."a" < 3)
THEN ((SELECT COUNT(*) FROM "t" AS "y", "e" AS "z" WHERE ("y"."a" = "x"."a")) = 100000)
ELSE FALSE END)"#;

const JOINED_BY_FEW: &str = r#"SELECT "x"."a" AS "a" FROM "t" AS "x", "t" AS "w"
WHERE ((("w"."a" < 3) AND ("w"."a" = "x"."a")) AND
(((SELECT COUNT(*) FROM "t" AS "y", "e" AS "z" WHERE ("y"."a" = "x"."a")) + "w"."a") > 3))"#;

const ASKED_INSIDE_BY_FEW: &str = r#"SELECT "x"."a" AS "a" FROM "t" AS "x"
WHERE (NOT EXISTS (SELECT 1 AS "o" FROM "t" AS "w" WHERE (("w"."a" = "x"."a") AND
(CASE WHEN ("x"."a" > 2) THEN TRUE
ELSE ((SELECT COUNT(*) FROM "t" AS "y", "e" AS "z" WHERE ("y"."a" = "w"."a")) < 100000) END))))"#;

const SETTLED_FOR_MOST: &str = r#"SELECT "x"."a" AS "a" FROM "t" AS "x" WHERE (CASE WHEN
(("x"."a" < 3) AND
((SELECT COUNT(*) FROM "t" AS "y", "e" AS "z" WHERE ("y"."a" = "x"."a")) = 100000))
THEN TRUE ELSE (NOT (("x"."a" > 2) OR
((SELECT COUNT(*) FROM "t" AS "y", "e" AS "z" WHERE ("y"."a" = "x"."a")) < 100000))) END)"#;

// As many pairs, whose first numbers rise from 0 by a step.
fn pairs(alloc: Global, count: usize, step: i64) -> Result<Vec<(i64, i64)>, Memory> {
    let mut pairs = Vec::with_capacity(alloc, count)?;
    let mut number: i64 = 0;
    for _ in 0..count {
        pairs.push((number, 0))?;
        number = number.wrapping_add(step);
    }
    Ok(pairs)
}

// The number that cancels what std's `FoldHasher`, whose seed is known, holds after a first one.
fn cancelling(first: i64) -> i64 {
    let mut hasher = FoldHasher::default();
    CellRef::Int(first).hash(&mut hasher);
    // What an integer feeds before its number.
    hasher.write_u8(1);
    hasher.finish().cast_signed()
}

// As many pairs with other second numbers, so that all would have one code if codes began with that
// hasher: each row of a join would be compared with all rows of the other table.
fn pairs_of_one_code(alloc: Global, count: usize, step: i64) -> Result<Vec<(i64, i64)>, Memory> {
    let mut chosen = pairs(alloc, count, step)?;
    for pair in chosen.as_mut_slice() {
        pair.1 = cancelling(pair.0);
    }
    Ok(chosen)
}

// Whether the rows are so many numbers, which rise from a first by a step.
fn rise(rows: &Rows, count: usize, first: i64, step: i64) -> bool {
    let mut number = first;
    for row in 0..rows.len() {
        if rows.width(row) != 1 || rows.cell(row, 0) != CellRef::Int(number) {
            return false;
        }
        number = number.wrapping_add(step);
    }
    rows.len() == count
}

#[test]
fn joins_and_not_exists(rt: HostRuntime) -> Result<(), Fail> {
    let alloc = rt.alloc();
    let schema = schema(alloc)?;
    let (every, even) = (pairs(alloc, COUNT, 1)?, pairs(alloc, COUNT, 2)?);
    let mut server: Box<dyn SqlServer> = Box::new(alloc, FastServer::new(alloc))?;
    load_both(alloc, &mut server, every.as_slice(), even.as_slice())?;
    let joined = ask(alloc, &mut server, &schema, JOINED)?;
    assert!(&rt; rise(&joined.rows, COUNT, 0, 1));
    let alone = ask(alloc, &mut server, &schema, ALONE)?;
    assert!(&rt; rise(&alone.rows, HALF, 1, 2));
    Ok(())
}

#[test]
fn all_equalities_as_keys(rt: HostRuntime) -> Result<(), Fail> {
    let alloc = rt.alloc();
    let schema = schema(alloc)?;
    let every = pairs(alloc, HALF, 1)?;
    let mut server: Box<dyn SqlServer> = Box::new(alloc, FastServer::new(alloc))?;
    load_both(alloc, &mut server, every.as_slice(), &[])?;
    let joined = ask(alloc, &mut server, &schema, JOINED_BY_BOTH)?;
    assert!(&rt; rise(&joined.rows, HALF, 0, 1));
    let joined = ask(alloc, &mut server, &schema, JOINED_BY_SUM)?;
    assert!(&rt; rise(&joined.rows, HALF, 0, 1));
    let joined = ask(alloc, &mut server, &schema, JOINED_BY_OWN_SUM)?;
    assert!(&rt; rise(&joined.rows, HALF, 0, 1));
    let joined = ask(alloc, &mut server, &schema, JOINED_BY_THE_LAST)?;
    assert!(&rt; rise(&joined.rows, HALF, 0, 1));
    Ok(())
}

#[test]
fn keys_that_someone_chose(rt: HostRuntime) -> Result<(), Fail> {
    let alloc = rt.alloc();
    let schema = schema(alloc)?;
    let every = pairs_of_one_code(alloc, HALF, 1)?;
    let even = pairs_of_one_code(alloc, HALF, 2)?;
    let mut server: Box<dyn SqlServer> = Box::new(alloc, FastServer::new(alloc))?;
    load_both(alloc, &mut server, every.as_slice(), even.as_slice())?;
    let shared = ask(alloc, &mut server, &schema, SHARED)?;
    assert!(&rt; rise(&shared.rows, HALF / 2, 0, 2));
    Ok(())
}

#[test]
fn conditions_on_one_source(rt: HostRuntime) -> Result<(), Fail> {
    let alloc = rt.alloc();
    let schema = schema(alloc)?;
    // the last number of the other table is the first that is none of this one
    let (every, even) = (pairs(alloc, HALF, 1)?, pairs(alloc, HALF / 2 + 1, 2)?);
    let mut server: Box<dyn SqlServer> = Box::new(alloc, FastServer::new(alloc))?;
    load_both(alloc, &mut server, every.as_slice(), even.as_slice())?;
    let last = ask(alloc, &mut server, &schema, LAST_ALONE)?;
    assert!(&rt; rise(&last.rows, HALF, 0, 1));
    let last = ask(alloc, &mut server, &schema, LAST_BY_OR)?;
    assert!(&rt; rise(&last.rows, HALF, 0, 1));
    let last = ask(alloc, &mut server, &schema, LAST_BY_NOT)?;
    assert!(&rt; rise(&last.rows, HALF, 0, 1));
    let last = ask(alloc, &mut server, &schema, LAST_BY_SUM)?;
    assert!(&rt; rise(&last.rows, HALF, 0, 1));
    let last = ask(alloc, &mut server, &schema, LAST_BY_QUERY)?;
    assert!(&rt; rise(&last.rows, HALF, 0, 1));
    let inner = ask(alloc, &mut server, &schema, INNER_BY_QUERY)?;
    assert!(&rt; rise(&inner.rows, HALF, 0, 1));
    let around = ask(alloc, &mut server, &schema, AROUND_ALONE)?;
    assert!(&rt; rise(&around.rows, 99_900, 100, 1));
    Ok(())
}

#[test]
fn emptiness_of_a_join(rt: HostRuntime) -> Result<(), Fail> {
    let alloc = rt.alloc();
    let schema = schema(alloc)?;
    let even = pairs(alloc, HALF, 2)?;
    let mut server: Box<dyn SqlServer> = Box::new(alloc, FastServer::new(alloc))?;
    load_both(alloc, &mut server, even.as_slice(), even.as_slice())?;
    let all = ask(alloc, &mut server, &schema, NONE_MEET)?;
    assert!(&rt; rise(&all.rows, HALF, 0, 2));
    let behind = ask(alloc, &mut server, &schema, NONE_BEHIND)?;
    assert!(&rt; rise(&behind.rows, HALF, 0, 2));
    Ok(())
}

#[test]
fn counts_and_sums(rt: HostRuntime) -> Result<(), Fail> {
    let alloc = rt.alloc();
    let schema = schema(alloc)?;
    let (every, even) = (pairs(alloc, COUNT, 1)?, pairs(alloc, COUNT, 2)?);
    let mut server: Box<dyn SqlServer> = Box::new(alloc, FastServer::new(alloc))?;
    load_both(alloc, &mut server, every.as_slice(), even.as_slice())?;
    let counted = ask(alloc, &mut server, &schema, COUNTED)?;
    assert!(&rt; rise(&counted.rows, COUNT, 1, 1));
    let summed = ask(alloc, &mut server, &schema, SUMMED)?;
    assert!(&rt; rise(&summed.rows, COUNT, 0, 1));
    let once = ask(alloc, &mut server, &schema, COUNTED_ONCE)?;
    assert!(&rt; rise(&once.rows, HALF, 0, 2));
    let behind = ask(alloc, &mut server, &schema, COUNTED_BEHIND)?;
    assert!(&rt; rise(&behind.rows, HALF, 0, 2));
    Ok(())
}

#[test]
fn totals_of_one_key(rt: HostRuntime) -> Result<(), Fail> {
    let alloc = rt.alloc();
    let schema = schema(alloc)?;
    let every = pairs(alloc, HALF, 1)?;
    let mut server: Box<dyn SqlServer> = Box::new(alloc, FastServer::new(alloc))?;
    load_both(alloc, &mut server, every.as_slice(), &[])?;
    let counted = ask(alloc, &mut server, &schema, COUNTED_AGAIN)?;
    assert!(&rt; rise(&counted.rows, HALF, 100_000, 1));
    let summed = ask(alloc, &mut server, &schema, SUMMED_AGAIN)?;
    assert!(&rt; rise(&summed.rows, HALF, 100_000, 1));
    let all = ask(alloc, &mut server, &schema, ALL_COUNTED)?;
    assert!(&rt; rise(&all.rows, HALF, 100_000, 1));
    Ok(())
}

#[test]
fn totals_that_few_rows_ask_for(rt: HostRuntime) -> Result<(), Fail> {
    let alloc = rt.alloc();
    let schema = schema(alloc)?;
    let (every, even) = (pairs(alloc, HALF, 1)?, pairs(alloc, HALF, 2)?);
    let mut server: Box<dyn SqlServer> = Box::new(alloc, FastServer::new(alloc))?;
    load_both(alloc, &mut server, every.as_slice(), even.as_slice())?;
    let counted = ask(alloc, &mut server, &schema, COUNTED_BY_FEW)?;
    assert!(&rt; rise(&counted.rows, 3, 100_000, 1));
    let tried = ask(alloc, &mut server, &schema, TRIED_BY_FEW)?;
    assert!(&rt; rise(&tried.rows, 3, 0, 1));
    let summed = ask(alloc, &mut server, &schema, SUMMED_BY_FEW)?;
    assert!(&rt; rise(&summed.rows, 3, 100_000, 1));
    let chosen = ask(alloc, &mut server, &schema, CHOSEN_BY_FEW)?;
    assert!(&rt; rise(&chosen.rows, 3, 0, 1));
    let joined = ask(alloc, &mut server, &schema, JOINED_BY_FEW)?;
    assert!(&rt; rise(&joined.rows, 3, 0, 1));
    let inside = ask(alloc, &mut server, &schema, ASKED_INSIDE_BY_FEW)?;
    assert!(&rt; rise(&inside.rows, 3, 0, 1));
    let settled = ask(alloc, &mut server, &schema, SETTLED_FOR_MOST)?;
    assert!(&rt; rise(&settled.rows, 3, 0, 1));
    Ok(())
}

// A text of so many WITH queries behind one of a single row, each of which uses the one before it twice.
fn doubling(alloc: Global, count: u64) -> Result<String, Memory> {
    let mut text = String::new(alloc);
    text.push_str(r#"WITH "w0" AS (SELECT 7 AS "a")"#)?;
    for at in 0..count {
        let next = at + 1;
        write!(
            text,
            r#", "w{next}" AS (SELECT "u"."a" AS "a" FROM "w{at}" AS "u", "w{at}" AS "v")"#
        )?;
    }
    write!(text, r#" SELECT "u"."a" AS "a" FROM "w{count}" AS "u""#)?;
    Ok(text)
}

#[test]
fn with_queries_used_twice(rt: HostRuntime) -> Result<(), Fail> {
    let alloc = rt.alloc();
    let schema = Schema {
        tables: List::new(alloc),
    };
    let text = doubling(alloc, 40)?;
    let mut server: Box<dyn SqlServer> = Box::new(alloc, FastServer::new(alloc))?;
    let answer = ask(alloc, &mut server, &schema, text.as_str())?;
    assert_eq!(&rt; shown(alloc, &answer.rows)?.as_str(), "7 ;");
    Ok(())
}
