// The scripted server gives its answers in order, and then fails.
ghost use Rattle.std.specs.Prelude.{◌≡◌, []};

use crate::asked::{ask, shown};
use nq_model::{CellRef, List, Memory, Schema};
use plain_engine::ScriptedServer;
use rows::Rows;
use sql_profile::{Answer, ServerFault, SqlServer};
use std::alloc::Global;
use std::test::Fail;

fn answer(alloc: Global, numbers: &[i64]) -> Result<Answer, Memory> {
    let mut rows = Rows::new(alloc);
    for number in numbers {
        rows.push_lent(&[CellRef::Int(*number)])?;
    }
    Ok(Answer { rows })
}

// What the server is to answer, which may be that it fails.
fn is_answered(
    alloc: Global,
    answered: Result<Answer, ServerFault>,
    wanted: Option<&str>,
) -> Result<bool, Memory> {
    match answered {
        Ok(answer) => Ok(wanted == Some(shown(alloc, &answer.rows)?.as_str())),
        Err(ServerFault::Failed) => Ok(wanted.is_none()),
        Err(ServerFault::Memory) => Err(Memory),
    }
}

// Whether a server without tables answers a text, asked as often, with what is wanted.
fn answers_are(
    alloc: Global,
    server: &mut Box<dyn SqlServer>,
    wanted: &[Option<&str>],
) -> Result<bool, Memory>
    requires { loaded server.old ≡ [] }
{
    let schema = Schema {
        tables: List::new(alloc),
    };
    for answer in wanted {
        let answered = ask(alloc, server, &schema, r#"SELECT 1 AS "n""#);
        if !is_answered(alloc, answered, *answer)? {
            return Ok(false);
        }
    }
    Ok(true)
}

#[test]
fn in_order(rt: HostRuntime) -> Result<(), Fail> {
    let alloc = rt.alloc();
    let mut script = List::new(alloc);
    script.push(answer(alloc, &[1])?)?;
    script.push(answer(alloc, &[2, 2])?)?;
    let mut server: Box<dyn SqlServer> = Box::new(alloc, ScriptedServer::new(alloc, script))?;
    let wanted = [Some("1 ;"), Some("2 ;2 ;"), None];
    assert!(&rt; answers_are(alloc, &mut server, &wanted)?);
    Ok(())
}
