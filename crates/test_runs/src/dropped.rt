// The server that is handed over is dropped once, however a run ends.
ghost use Rattle.std.specs.Prelude.{◌≡◌, []};

use crate::nested::{WHOLE, inputs_failing};
use crate::runs::{Room, run_over};
use nq_model::{Cell, List};
use plain_engine::{FailingServer, PlainServer, ScriptedServer};
use rows::Rows;
use sql_profile::{Answer, Loaded, ServerFault, SqlServer};
use std::alloc::Global;
use std::cell::Cell as Shared;
use std::process::Abort;
use std::rc::Rc;
use std::test::Fail;

// Counts its drops where others see the count.
struct Bell {
    drops: Rc<Shared<u32>>,
}

impl Drop for Bell {
    fn drop(self) {
        let Self { drops } = self;
        drops.set(drops.get().saturating_add(1));
    }
}

// A server that does what another does, and counts its drops.
#[derive(Drop)]
struct Counted<S: SqlServer> {
    server: S,
    bell: Bell,
}

impl<S: SqlServer> SqlServer for Counted<S> {
    ghost loaded = { λ counted. S.loaded counted.server };

    ghost honest = { λ counted. S.honest counted.server };

    ghost failures = { λ counted. S.failures counted.server };

    ghost bound = { λ counted. S.bound counted.server };

    ghost asks = { λ counted. S.asks counted.server };

    ghost bounded = { λ counted. S.bounded counted.server };

    fn load(&mut self, alloc: Global, table: Loaded) -> Result<(), ServerFault> {
        self.server.load(alloc, table)
    }

    fn ask(&mut self, alloc: Global, text: &[u8]) -> Result<Answer, ServerFault> {
        self.server.ask(alloc, text)
    }
}

// How a run ends: the numbers of the fetches that fail, the words, and the status.
#[derive(Clone, Copy)]
struct End {
    failing: &'static [u64],
    words: &'static [&'static str],
    status: u8,
}

const DONE: End = End {
    failing: &[],
    words: &["run", "org", "q", "data"],
    status: 0,
};

const ENDS: [End; 3] = [
    DONE,
    End {
        words: &[],
        status: 2,
        ..DONE
    },
    End {
        failing: &[3],
        status: 7,
        ..DONE
    },
];

// Runs the program over a server whose drops are counted.
fn check_dropped(
    rt: &impl Abort,
    alloc: Global,
    server: Box<dyn SqlServer>,
    drops: &Shared<u32>,
    end: End,
) -> Result<(), Fail>
    requires { loaded server ≡ [] }
{
    let inputs = inputs_failing(alloc, &WHOLE, end.failing)?;
    let room = Room {
        out: 2000,
        notes: 200,
    };
    let ran = run_over(alloc, server, inputs, end.words, room)?;
    assert_eq!(rt; ran.status, end.status);
    assert_eq!(rt; drops.get(), 1);
    Ok(())
}

#[test]
fn a_server_is_dropped_once(rt: HostRuntime) -> Result<(), Fail> {
    let alloc = rt.alloc();
    for end in &ENDS {
        let drops = Rc::new(alloc, Shared::new(0u32))?;
        let bell = Bell {
            drops: drops.clone()?,
        };
        let server = PlainServer::new(alloc);
        let server: Box<dyn SqlServer> = Box::new(alloc, Counted { server, bell })?;
        check_dropped(&rt, alloc, server, &drops, *end)?;
    }
    Ok(())
}

#[test]
fn a_server_that_fails_is_dropped_once(rt: HostRuntime) -> Result<(), Fail> {
    let alloc = rt.alloc();
    let drops = Rc::new(alloc, Shared::new(0u32))?;
    let bell = Bell {
        drops: drops.clone()?,
    };
    let server = FailingServer::new(alloc, List::from_slice(alloc, &[1])?);
    let server: Box<dyn SqlServer> = Box::new(alloc, Counted { server, bell })?;
    check_dropped(&rt, alloc, server, &drops, End { status: 9, ..DONE })
}

#[test]
fn a_server_whose_answer_does_not_fit_is_dropped_once(rt: HostRuntime) -> Result<(), Fail> {
    let alloc = rt.alloc();
    let drops = Rc::new(alloc, Shared::new(0u32))?;
    let bell = Bell {
        drops: drops.clone()?,
    };
    let mut rows = Rows::new(alloc);
    rows.push(&[Cell::Int(1)])?;
    let mut answers = List::new(alloc);
    answers.push(Answer { rows })?;
    let server = ScriptedServer::new(alloc, answers);
    let server: Box<dyn SqlServer> = Box::new(alloc, Counted { server, bell })?;
    check_dropped(&rt, alloc, server, &drops, End { status: 11, ..DONE })
}
