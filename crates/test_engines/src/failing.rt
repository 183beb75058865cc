// The failing server fails at each listed call, and at no other.
ghost use Rattle.std.specs.Prelude.{◌≡◌};
ghost use Rattle.sql_profile.specs.Scope.{shapes_of, shapes_of_schema};

use crate::asked::ask;
use crate::tables::{PAIRS, load_both, schema};
use nq_model::{List, Schema};
use plain_engine::FailingServer;
use sql_profile::{ServerFault, SqlServer};
use std::alloc::Global;
use std::test::Fail;

const TEXT: &str = r#"SELECT "x"."b" AS "b" FROM "t" AS "x""#;

// Asks the text, and again where that call fails; and how many calls it took.
fn ask_at_last(
    alloc: Global,
    server: &mut Box<dyn SqlServer>,
    schema: &Schema,
) -> Result<u64, ServerFault>
    requires { shapes_of (loaded server.old) ≡ shapes_of_schema schema.now.tables }
    ensures { loaded server.new ≡ loaded server.old }
{
    match ask(alloc, server, schema, TEXT) {
        Ok(_) => Ok(1),
        Err(ServerFault::Memory) => Err(ServerFault::Memory),
        Err(ServerFault::Failed) => {
            ask(alloc, server, schema, TEXT)?;
            Ok(2)
        }
    }
}

// Two loads and two asks, and how many calls each took.
fn calls_taken(alloc: Global, failing: &[u64]) -> Result<[u64; 4], ServerFault> {
    let failing = List::from_slice(alloc, failing)?;
    let mut server: Box<dyn SqlServer> = Box::new(
        alloc,
        FailingServer::new(alloc, failing),
    ).map_err(|_| ServerFault::Memory)?;
    let schema = schema(alloc)?;
    let loads = load_both(alloc, &mut server, PAIRS, &[])?;
    let first = ask_at_last(alloc, &mut server, &schema)?;
    let second = ask_at_last(alloc, &mut server, &schema)?;
    Ok([loads[0], loads[1], first, second])
}

const CASES: [(&[u64], [u64; 4]); 8] = [
    (&[], [1, 1, 1, 1]),
    (&[1], [2, 1, 1, 1]),
    (&[2], [1, 2, 1, 1]),
    (&[3], [1, 1, 2, 1]),
    (&[4], [1, 1, 1, 2]),
    (&[5, 0], [1, 1, 1, 1]),
    (&[3, 3], [1, 1, 2, 1]),
    // A call that fails takes a number too.
    (&[4, 1], [2, 1, 2, 1]),
];

#[test]
fn at_each_number(rt: HostRuntime) -> Result<(), Fail> {
    for (failing, taken) in &CASES {
        assert_eq!(&rt; calls_taken(rt.alloc(), failing)?, *taken);
    }
    Ok(())
}
