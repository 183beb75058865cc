// Whole runs over servers that fail, and over servers that answer what a script says; handed over, and lent.
ghost use Rattle.std.specs.Prelude.{◌≡◌, [], IfOk};

use crate::nested::{Nested, TWICE, WHOLE, inputs_failing, inputs_of};
use crate::runs::{Engine, Wanted, check_run, check_run_lent, check_run_over};
use nq_model::{Cell, List, Text};
use plain_engine::{FailingServer, ScriptedServer};
use rows::Rows;
use sql_profile::{Answer, SqlServer};
use std::alloc::Global;
use std::process::Abort;
use std::test::Fail;

const FAILED: Wanted = Wanted {
    words: &["run", "org", "q", "data"],
    room: 2000,
    status: 9,
    out: "",
    note: "",
};

// The numbers of calls that fail, each with the note line. Four loads come before the first ask.
const FAILURES: [(u64, &str); 7] = [
    (1, "nq: server failed: table departments\n"),
    (2, "nq: server failed: table employees\n"),
    (3, "nq: server failed: table tasks\n"),
    (4, "nq: server failed: table contacts\n"),
    (5, "nq: server failed: text 1\n"),
    (6, "nq: server failed: text 2\n"),
    (7, "nq: server failed: text 3\n"),
];

// The numbers of fetches that fail, each with the note line.
const FETCHES: [(u64, &str); 6] = [
    (1, "nq: input failed: org\n"),
    (2, "nq: input failed: q\n"),
    (3, "nq: input failed: data/departments.csv\n"),
    (4, "nq: input failed: data/employees.csv\n"),
    (5, "nq: input failed: data/tasks.csv\n"),
    (6, "nq: input failed: data/contacts.csv\n"),
];

#[test]
fn names_the_call_that_failed(rt: HostRuntime) -> Result<(), Fail> {
    let alloc = rt.alloc();
    for (number, note) in &FAILURES {
        let failing = List::from_slice(alloc, &[*number])?;
        let server: Box<dyn SqlServer> = Box::new(alloc, FailingServer::new(alloc, failing))?;
        let wanted = Wanted {
            note: *note,
            ..FAILED
        };
        check_run_over(&rt, alloc, server, inputs_of(alloc, &WHOLE)?, &wanted)?;
        let failing = List::from_slice(alloc, &[*number])?;
        let mut lent: Box<dyn SqlServer> = Box::new(alloc, FailingServer::new(alloc, failing))?;
        check_run_lent(&rt, alloc, &mut lent, inputs_of(alloc, &WHOLE)?, &wanted)?;
    }
    Ok(())
}

#[test]
fn names_the_input_that_failed(rt: HostRuntime) -> Result<(), Fail> {
    let alloc = rt.alloc();
    for (number, note) in &FETCHES {
        let wanted = Wanted {
            status: 7,
            note: *note,
            ..FAILED
        };
        let inputs = inputs_failing(alloc, &WHOLE, &[*number])?;
        check_run(&rt, alloc, Engine::Plain, inputs, &wanted)?;
    }
    Ok(())
}

const DEPARTMENTS: Nested = Nested {
    query: "table departments",
    ..WHOLE
};

// A query and the answers of a script, each of rows, whose cells are words: a word that is no number is a text. And the
// status, the output and the note that are wanted.
#[derive(Clone, Copy)]
struct Script {
    query: Nested,
    answers: &'static [&'static [&'static str]],
    status: u8,
    out: &'static str,
    note: &'static str,
}

const MOON: Script = Script {
    query: DEPARTMENTS,
    answers: &[&["0 1 Moon"]],
    status: 0,
    out: "{(name = 'Moon')}\n",
    note: "",
};

const MISFIT: Script = Script {
    status: 11,
    out: "",
    ..MOON
};

const SCRIPTS: [Script; 7] = [
    MOON,
    // A row under an index that no row gives is not used.
    Script {
        answers: &[&["0 1 Moon", "9 9 Sun"]],
        ..MOON
    },
    // Rows under one index belong to each row that gives it.
    Script {
        query: TWICE,
        answers: &[&["0 1 P 1 1", "0 1 Q 1 1"], &["1 1 Alex", "1 3 Bert"]],
        out: "{(d = 'P', es = {'Alex'}), (d = 'Q', es = {'Alex'})}\n",
        ..MOON
    },
    Script {
        answers: &[&["0 1 5"]],
        note: "nq: bad answer: text 1 row 1 column 3\n",
        ..MISFIT
    },
    Script {
        answers: &[&["0 1 a 7"]],
        note: "nq: bad answer: text 1 row 1 column 4\n",
        ..MISFIT
    },
    Script {
        query: TWICE,
        answers: &[&["0 1 P 1 1"], &["1 1"]],
        note: "nq: bad answer: text 2 row 1 column 3\n",
        ..MISFIT
    },
    Script {
        query: TWICE,
        answers: &[&["0 1 P 1 1"]],
        status: 9,
        note: "nq: server failed: text 2\n",
        ..MISFIT
    },
];

// The cell that a word is.
fn cell(alloc: Global, word: &str) -> Result<Cell, Fail> {
    match word.parse::<i64>() {
        Ok(number) => Ok(Cell::Int(number)),
        Err(_) => Ok(Cell::Text(Text::from_str(alloc, word)?)),
    }
}

// An answer of these rows.
fn answer(alloc: Global, given: &[&str]) -> Result<Answer, Fail> {
    let mut rows = Rows::new(alloc);
    for words in given {
        let mut row = List::new(alloc);
        for word in words.split(' ') {
            row.push(cell(alloc, word)?)?;
        }
        rows.push(row.as_slice())?;
    }
    Ok(Answer { rows })
}

// A server that gives the answers of a script.
fn scripted(alloc: Global, script: &Script) -> Result<ScriptedServer, Fail>
    ensures { IfOk result (λ server. ⟦<ScriptedServer as SqlServer>⟧.loaded server ≡ []) }
{
    let mut answers = List::new(alloc);
    for given in script.answers {
        answers.push(answer(alloc, given)?)?;
    }
    Ok(ScriptedServer::new(alloc, answers))
}

// Runs a script over a server that is handed over.
fn check_handed(
    rt: &impl Abort,
    alloc: Global,
    script: &Script,
    wanted: &Wanted,
) -> Result<(), Fail> {
    let server = scripted(alloc, script)?;
    let server: Box<dyn SqlServer> = Box::new(alloc, server)?;
    check_run_over(rt, alloc, server, inputs_of(alloc, &script.query)?, wanted)
}

// Runs a script over a server that is lent.
fn check_lent(
    rt: &impl Abort,
    alloc: Global,
    script: &Script,
    wanted: &Wanted,
) -> Result<(), Fail> {
    let server = scripted(alloc, script)?;
    let mut server: Box<dyn SqlServer> = Box::new(alloc, server)?;
    let inputs = inputs_of(alloc, &script.query)?;
    check_run_lent(rt, alloc, &mut server, inputs, wanted)
}

// What answers tell that are no honest server's: whatever fits is written.
const TRACED: [Script; 6] = [
    Script {
        answers: &[&["0 1 1 2 Moon"]],
        out: "{(name = 'Moon') @ [departments 2]}\n",
        ..MOON
    },
    // No comprehension has this tag.
    Script {
        answers: &[&["0 1 7 2 Moon"]],
        out: "{(name = 'Moon') @ []}\n",
        ..MOON
    },
    // No row has this number.
    Script {
        answers: &[&["0 1 1 -5 Moon"]],
        out: "{(name = 'Moon') @ [departments -5]}\n",
        ..MOON
    },
    // The tag of a comprehension at another path.
    Script {
        query: TWICE,
        answers: &[&["0 1 1 1 P 1 1"], &["1 1 2 4 Alex", "1 1 1 4 Bert"]],
        out: "{(d = 'P', es = {'Alex' @ [employees 4], 'Bert' @ []}) @ [departments 1]}\n",
        ..MOON
    },
    Script {
        answers: &[&["0 1 1 2 5"]],
        note: "nq: bad answer: text 1 row 1 column 5\n",
        ..MISFIT
    },
    Script {
        query: TWICE,
        answers: &[&["0 1 1 1 P 1 1"]],
        status: 9,
        note: "nq: server failed: text 2\n",
        ..MISFIT
    },
];

#[test]
fn traces_what_a_script_answers(rt: HostRuntime) -> Result<(), Fail> {
    let alloc = rt.alloc();
    for script in &TRACED {
        let wanted = Wanted {
            words: &["lineage", "org", "q", "data"],
            status: script.status,
            out: script.out,
            note: script.note,
            ..FAILED
        };
        check_handed(&rt, alloc, script, &wanted)?;
        check_lent(&rt, alloc, script, &wanted)?;
    }
    Ok(())
}

#[test]
fn writes_what_a_script_answers(rt: HostRuntime) -> Result<(), Fail> {
    let alloc = rt.alloc();
    for script in &SCRIPTS {
        let wanted = Wanted {
            status: script.status,
            out: script.out,
            note: script.note,
            ..FAILED
        };
        check_handed(&rt, alloc, script, &wanted)?;
        check_lent(&rt, alloc, script, &wanted)?;
    }
    Ok(())
}
