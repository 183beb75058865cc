// Whole runs that tell which rows made each element, worked out by hand.
use crate::nested::{Nested, TWICE, WHOLE, inputs_failing, inputs_of};
use crate::runs::{Engine, Wanted, check_run, check_run_lent, check_run_over, server_of};
use nq_model::List;
use plain_engine::FailingServer;
use sql_profile::SqlServer;
use std::alloc::Global;
use std::process::Abort;
use std::test::Fail;

const WORDS: &[&str] = &["lineage", "org", "q", "data"];

const LINEAGE: Wanted = Wanted {
    words: WORDS,
    room: 2000,
    status: 0,
    out: "",
    note: "",
};

// The employees of each department.
const STAFF: Nested = Nested {
    query: "for (d <- table departments)
[(d = d.name, es = for (e <- table employees) where (e.dept == d.name) [e.name])]",
    out: "{(d = 'Product', es = {'Alex' @ [employees 1], 'Bert' @ [employees 2]}) @ [departments 1], (d = 'Quality', es = {}) @ [departments 2], (d = 'Research', es = {}) @ [departments 3], (d = 'Sales', es = {'Erik' @ [employees 3]}) @ [departments 4]}\n",
    ..WHOLE
};

const TRACED: [Nested; 13] = [
    STAFF,
    // Equal values stay apart by their rows, and a constant has none.
    Nested {
        query: "[1] ++ (for (x <- table tasks) [1])",
        out: "{1 @ [], 1 @ [tasks 1], 1 @ [tasks 2], 1 @ [tasks 3], 1 @ [tasks 4]}\n",
        ..WHOLE
    },
    // Equal rows are two rows.
    Nested {
        out: "{(d = 'Product', es = {'Alex' @ [employees 1], 'Bert' @ [employees 2]}) @ [departments 1], (d = 'Product', es = {'Alex' @ [employees 1], 'Bert' @ [employees 2]}) @ [departments 2]}\n",
        ..TWICE
    },
    // The outer row stands first.
    Nested {
        query: "for (d <- table departments) for (e <- table employees)
where (e.dept == d.name) [e.name]",
        out: "{'Alex' @ [departments 1, employees 1], 'Bert' @ [departments 1, employees 2], 'Erik' @ [departments 4, employees 3]}\n",
        ..WHOLE
    },
    Nested {
        query: "for (x <- for (e <- table employees) where (e.salary > 0) [e])
for (c <- table contacts) where (c.dept == x.dept) [(n = x.name, c = c.name)]",
        out: "{(c = 'Pam', n = 'Alex') @ [employees 1, contacts 1], (c = 'Pam', n = 'Bert') @ [employees 2, contacts 1], (c = 'Sue', n = 'Erik') @ [employees 3, contacts 3]}\n",
        ..WHOLE
    },
    // Sides of a union have one row and none outside, and one, two and none inside.
    Nested {
        query: "(for (d <- table departments) where (d.name == 'Sales')
  [(n = 'a', b = for (e <- table employees) where (e.dept == d.name) [e.name])])
++ [(n = 'b', b = (for (t <- table tasks) for (e <- table employees)
     where (t.employee == e.name) [t.task]) ++ ['x'])]",
        out: "{(b = {'Erik' @ [employees 3]}, n = 'a') @ [departments 4], (b = {'build' @ [tasks 1, employees 1], 'build' @ [tasks 2, employees 2], 'call' @ [tasks 3, employees 3], 'enthuse' @ [tasks 4, employees 3], 'x' @ []}, n = 'b') @ []}\n",
        ..WHOLE
    },
    Nested {
        query: "for (t <- table tasks) [t.task]",
        out: "{'build' @ [tasks 1], 'build' @ [tasks 2], 'call' @ [tasks 3], 'enthuse' @ [tasks 4]}\n",
        ..WHOLE
    },
    // The rows that a test or a total looks at are none of the element's.
    Nested {
        query: "for (d <- table departments)
where (empty(for (e <- table employees) where (e.dept == d.name) [e])) [d.name]",
        out: "{'Quality' @ [departments 2], 'Research' @ [departments 3]}\n",
        ..WHOLE
    },
    Nested {
        query: "nq 2; for (d <- table departments)
[(n = count(for (e <- table employees) where (e.dept == d.name) [e]))]",
        out: "{(n = 0) @ [departments 2], (n = 0) @ [departments 3], (n = 1) @ [departments 4], (n = 2) @ [departments 1]}\n",
        ..WHOLE
    },
    // Rows stand by their numbers, and not by the texts of these.
    Nested {
        query: "for (t <- table tasks) [1]",
        tasks: "employee,task\na,b\na,b\na,b\na,b\na,b\na,b\na,b\na,b\na,b\na,b\n",
        out: "{1 @ [tasks 1], 1 @ [tasks 2], 1 @ [tasks 3], 1 @ [tasks 4], 1 @ [tasks 5], 1 @ [tasks 6], 1 @ [tasks 7], 1 @ [tasks 8], 1 @ [tasks 9], 1 @ [tasks 10]}\n",
        ..WHOLE
    },
    // Fewer rows stand before more.
    Nested {
        query: "(for (d <- table departments) for (t <- table tasks) [1])
++ (for (d <- table departments) [1]) ++ (for (t <- table tasks) [1])",
        departments: "name\nP\n",
        tasks: "employee,task\na,b\nc,d\n",
        out: "{1 @ [departments 1], 1 @ [departments 1, tasks 1], 1 @ [departments 1, tasks 2], 1 @ [tasks 1], 1 @ [tasks 2]}\n",
        ..WHOLE
    },
    Nested {
        query: "[: (a: int, b: [text])]",
        out: "{}\n",
        ..WHOLE
    },
    // A table without rows has no numbers.
    Nested {
        query: "table departments",
        departments: "name\n",
        out: "{}\n",
        ..WHOLE
    },
];

fn check_traced(rt: &impl Abort, alloc: Global, engine: Engine) -> Result<(), Fail> {
    for row in &TRACED {
        let wanted = Wanted {
            out: row.out,
            ..LINEAGE
        };
        check_run(rt, alloc, engine, inputs_of(alloc, row)?, &wanted)?;
    }
    Ok(())
}

#[test]
fn tells_the_rows_over_the_plain_server(rt: HostRuntime) -> Result<(), Fail> {
    check_traced(&rt, rt.alloc(), Engine::Plain)
}

#[test]
fn tells_the_rows_over_the_crooked_server(rt: HostRuntime) -> Result<(), Fail> {
    check_traced(&rt, rt.alloc(), Engine::Crooked)
}

#[test]
fn tells_the_rows_over_the_fast_server(rt: HostRuntime) -> Result<(), Fail> {
    check_traced(&rt, rt.alloc(), Engine::Fast)
}

#[test]
fn tells_the_rows_over_a_server_that_is_lent(rt: HostRuntime) -> Result<(), Fail> {
    let alloc = rt.alloc();
    let mut server = server_of(alloc, Engine::Crooked)?;
    let wanted = Wanted {
        out: STAFF.out,
        ..LINEAGE
    };
    check_run_lent(&rt, alloc, &mut server, inputs_of(alloc, &STAFF)?, &wanted)
}

const JSON: [Nested; 3] = [
    Nested {
        out: "[{\"rows\":[[\"departments\",1]],\"value\":{\"d\":\"Product\",\"es\":[{\"rows\":[[\"employees\",1]],\"value\":\"Alex\"},{\"rows\":[[\"employees\",2]],\"value\":\"Bert\"}]}},{\"rows\":[[\"departments\",2]],\"value\":{\"d\":\"Quality\",\"es\":[]}},{\"rows\":[[\"departments\",3]],\"value\":{\"d\":\"Research\",\"es\":[]}},{\"rows\":[[\"departments\",4]],\"value\":{\"d\":\"Sales\",\"es\":[{\"rows\":[[\"employees\",3]],\"value\":\"Erik\"}]}}]\n",
        ..STAFF
    },
    // Rows keep their order, and there may be none.
    Nested {
        query: "[1] ++ (for (t <- table tasks) for (d <- table departments)
where (t.task == 'call' && d.name == 'Sales') [1])",
        out: "[{\"rows\":[],\"value\":1},{\"rows\":[[\"tasks\",3],[\"departments\",4]],\"value\":1}]\n",
        ..WHOLE
    },
    Nested {
        query: "[: int]",
        out: "[]\n",
        ..WHOLE
    },
];

fn check_json(rt: &impl Abort, alloc: Global, engine: Engine) -> Result<(), Fail> {
    for row in &JSON {
        let wanted = Wanted {
            words: &["lineage", "json", "org", "q", "data"],
            out: row.out,
            ..LINEAGE
        };
        check_run(rt, alloc, engine, inputs_of(alloc, row)?, &wanted)?;
    }
    Ok(())
}

#[test]
fn tells_the_rows_as_json(rt: HostRuntime) -> Result<(), Fail> {
    let alloc = rt.alloc();
    check_json(&rt, alloc, Engine::Plain)?;
    check_json(&rt, alloc, Engine::Crooked)?;
    check_json(&rt, alloc, Engine::Fast)
}

/// What is refused, and the status and the note that are wanted.
#[derive(Clone, Copy)]
struct Refusal {
    words: &'static [&'static str],
    inputs: Nested,
    failing: &'static [u64],
    status: u8,
    note: &'static str,
}

const ILL_TYPED: Refusal = Refusal {
    words: WORDS,
    inputs: Nested {
        query: "1 + 1",
        ..STAFF
    },
    failing: &[],
    status: 5,
    note: "nq: ill typed: rule 23 at 2\n",
};

const REFUSALS: [Refusal; 7] = [
    ILL_TYPED,
    Refusal {
        inputs: Nested {
            query: "[",
            ..STAFF
        },
        status: 4,
        note: "nq: query refused: Unexpected at 1\n",
        ..ILL_TYPED
    },
    // The texts of the tables have no numbers.
    Refusal {
        inputs: Nested {
            departments: "name,#\nProduct,1\n",
            ..STAFF
        },
        status: 6,
        note: "nq: table departments refused: Header\n",
        ..ILL_TYPED
    },
    Refusal {
        inputs: Nested {
            tasks: "employee,task\nAlex\n",
            ..STAFF
        },
        status: 6,
        note: "nq: table tasks refused: Width row 1\n",
        ..ILL_TYPED
    },
    Refusal {
        inputs: STAFF,
        failing: &[4],
        status: 7,
        note: "nq: input failed: data/employees.csv\n",
        ..ILL_TYPED
    },
    Refusal {
        words: &["lineage", "org", "q"],
        status: 2,
        note: "nq: usage\n",
        ..ILL_TYPED
    },
    Refusal {
        words: &["lineage", "natural", "org", "q", "data"],
        status: 2,
        note: "nq: usage\n",
        ..ILL_TYPED
    },
];

#[test]
fn refuses_a_lineage_as_a_run(rt: HostRuntime) -> Result<(), Fail> {
    let alloc = rt.alloc();
    for row in &REFUSALS {
        let wanted = Wanted {
            words: row.words,
            status: row.status,
            note: row.note,
            ..LINEAGE
        };
        let inputs = inputs_failing(alloc, &row.inputs, row.failing)?;
        check_run(&rt, alloc, Engine::Fast, inputs, &wanted)?;
    }
    Ok(())
}

// The numbers of calls that fail, each with the note line. Four loads come before the first ask.
const FAILURES: [(u64, &str); 3] = [
    (4, "nq: server failed: table contacts\n"),
    (5, "nq: server failed: text 1\n"),
    (6, "nq: server failed: text 2\n"),
];

#[test]
fn names_the_call_of_a_lineage_that_failed(rt: HostRuntime) -> Result<(), Fail> {
    let alloc = rt.alloc();
    for (number, note) in &FAILURES {
        let failing = List::from_slice(alloc, &[*number])?;
        let server: Box<dyn SqlServer> = Box::new(alloc, FailingServer::new(alloc, failing))?;
        let wanted = Wanted {
            status: 9,
            note: *note,
            ..LINEAGE
        };
        check_run_over(&rt, alloc, server, inputs_of(alloc, &STAFF)?, &wanted)?;
    }
    Ok(())
}

#[test]
fn writes_a_lineage_whole_or_says_so(rt: HostRuntime) -> Result<(), Fail> {
    let alloc = rt.alloc();
    let wanted = Wanted {
        room: 10,
        status: 8,
        out: "{(d = 'Pro",
        note: "nq: output failed\n",
        ..LINEAGE
    };
    check_run(&rt, alloc, Engine::Fast, inputs_of(alloc, &STAFF)?, &wanted)
}
