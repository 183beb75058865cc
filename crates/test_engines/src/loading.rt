// The fast server is asked again over the same tables, and over one more, whose cells it has met in
// the first.
ghost use Rattle.std.specs.Prelude.{◌≡◌, []};

use crate::asked::{ask, shown};
use crate::tables::{PAIRS, first_schema, load_first, load_second, schema};
use fast_engine::FastServer;
use sql_profile::SqlServer;
use std::alloc::Global;
use std::test::Fail;

// Two texts that have one WITH query.
const WITH_NUMBERS: &str = r#"WITH "w" AS (SELECT "x"."a" AS "a",
    ROW_NUMBER() OVER (ORDER BY "x"."b") AS "n" FROM "t" AS "x" WHERE ("x"."b" > 1))
    SELECT "w"."n" AS "n", "w"."a" AS "a" FROM "w" AS "w""#;

const WITH_JOINED: &str = r#"WITH "w" AS (SELECT "x"."a" AS "a",
    ROW_NUMBER() OVER (ORDER BY "x"."b") AS "n" FROM "t" AS "x" WHERE ("x"."b" > 1))
    SELECT "x"."b" AS "b", "w"."n" AS "n" FROM "t" AS "x", "w" AS "w" WHERE ("x"."a" = "w"."a")"#;

const BOTH_TABLES: &str = r#"SELECT "x"."b" AS "b", "y"."b" AS "c"
    FROM "t" AS "x", "e" AS "y" WHERE ("x"."a" = "y"."a")"#;

#[test]
fn a_table_between_two_asks(rt: HostRuntime) -> Result<(), Fail> {
    let alloc = rt.alloc();
    let (first, both) = (first_schema(alloc)?, schema(alloc)?);
    let mut server: Box<dyn SqlServer> = Box::new(alloc, FastServer::new(alloc))?;
    load_first(alloc, &mut server, PAIRS)?;
    let numbers = ask(alloc, &mut server, &first, WITH_NUMBERS)?;
    assert_eq!(&rt; shown(alloc, &numbers.rows)?.as_str(), "1 6 ;2 5 ;");
    let joined = ask(alloc, &mut server, &first, WITH_JOINED)?;
    assert_eq!(&rt; shown(alloc, &joined.rows)?.as_str(), "1 2 ;2 1 ;3 2 ;");
    load_second(alloc, &mut server, &[(7, 1), (5, 9), (6, 8)])?;
    let pairs = ask(alloc, &mut server, &both, BOTH_TABLES)?;
    assert_eq!(&rt; shown(alloc, &pairs.rows)?.as_str(), "1 9 ;2 8 ;3 9 ;");
    let again = ask(alloc, &mut server, &both, WITH_JOINED)?;
    assert_eq!(&rt; shown(alloc, &again.rows)?.as_str(), "1 2 ;2 1 ;3 2 ;");
    Ok(())
}
