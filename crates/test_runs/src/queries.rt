// Whole runs that read and type queries.
use crate::runs::{Engine, Wanted, check_run, held, padded, put};
use nq_edge::HeldInputs;
use nq_model::List;
use std::alloc::Global;
use std::process::Abort;
use std::test::Fail;

const ORG: &str = "table departments (name: text);
table employees (dept: text, name: text, salary: int);
table tasks (employee: text, task: text);
table contacts (dept: text, name: text, client: bool);
";

const DEPARTMENTS: &str = "name\nProduct\nQuality\nResearch\nSales\n";

const EMPLOYEES: &str =
    "dept,name,salary\nProduct,Alex,20000\nProduct,Bert,900\nSales,Erik,2000000\n";

const TASKS: &str = "employee,task\nAlex,build\nBert,build\nErik,call\nErik,enthuse\n";

const CONTACTS: &str = "dept,name,client\nProduct,Pam,false\nQuality,Quinn,true\nSales,Sue,true\n";

const NAMES: &str =
    "{(name = 'Product'), (name = 'Quality'), (name = 'Research'), (name = 'Sales')}\n";

/// Each department with its employees, and each of those with their tasks.
pub const NESTED: &str = "let tasksOf = fun (e: text) ->
  for (t <- table tasks) where (t.employee == e) [t.task];
for (d <- table departments)
[(department = d.name,
  employees = for (e <- table employees) where (e.dept == d.name)
    [(name = e.name, tasks = tasksOf(e.name))])]
";

const HELP: &str = "nq answers typed queries over flat tables.

nq run SCHEMA QUERY DIR              writes the value of the query
nq run natural SCHEMA QUERY DIR      writes it by SQL texts that name bags by keys
nq run json SCHEMA QUERY DIR         writes the value of the query as JSON
nq run json tables SCHEMA QUERY DIR  writes it as JSON over JSON tables
nq lineage SCHEMA QUERY DIR          writes each element with its table rows
nq lineage json SCHEMA QUERY DIR     writes the elements and their rows as JSON
nq answer SCHEMA SQLFILE DIR         writes the rows of the SQL text
nq answer json SCHEMA SQLFILE DIR    writes the rows of the SQL text as JSON
nq stitch SCHEMA QUERY DIR           writes the value of answers made elsewhere
nq stitch json SCHEMA QUERY DIR      writes the value of answers as JSON
nq gen N                             writes a summary over tables of size N
nq check SCHEMA QUERY                writes ok where the query is accepted
nq explain SCHEMA QUERY              writes its type, or explains its first fault
nq explain sql SCHEMA SQLFILE        writes its columns, or explains a fault
nq explain table SCHEMA TABLE DIR    writes its type, or explains a fault
nq explain rule N                    writes what typing rule N asks, with examples
nq explain sql rule N                writes what rule N of SQL texts asks
nq show types SCHEMA QUERY           writes the type of the query
nq show normal SCHEMA QUERY          writes the normal form of the query
nq show paths SCHEMA QUERY           writes a line for each bag of the type
nq show sql SCHEMA QUERY             writes an SQL text for each bag of the type
nq show natural SCHEMA QUERY         writes the SQL texts that name bags by keys
nq show json SCHEMA QUERY            writes the SQL texts and the types as JSON
nq show load DATABASE SCHEMA         writes a script that loads the tables
nq show script DATABASE SCHEMA QUERY DIR
                                     writes a script that asks the SQL texts
nq --help                            writes a line for each form
nq --help WORD                       writes the forms of WORD, with examples
nq --version                         writes the name and the version of nq

SCHEMA, QUERY and SQLFILE are files. The table t is the file DIR/t.csv, and as a
JSON table DIR/t.json. The answer to the SQL text K is the file DIR/K.csv.
DATABASE is postgres or sqlite.
README.md explains the statuses, under Commands.
";

/// The words, the query, the numbers of the fetches that fail and the room of the output; and the status,
/// the output and the note that are wanted.
#[derive(Clone, Copy)]
pub struct Row {
    pub words: &'static [&'static str],
    pub query: &'static str,
    pub failing: &'static [u64],
    pub room: u64,
    pub status: u8,
    pub out: &'static str,
    pub note: &'static str,
}

/// A query that is accepted.
pub const CHECK: Row = Row {
    words: &["check", "org", "q"],
    query: "[1]",
    failing: &[],
    room: 2000,
    status: 0,
    out: "ok\n",
    note: "",
};

const SHOW: Row = Row {
    words: &["show", "types", "org", "q"],
    out: "[int]\n",
    ..CHECK
};

/// A query whose normal form is written.
pub const NORMAL: Row = Row {
    words: &["show", "normal", "org", "q"],
    ..CHECK
};

const PATHS: Row = Row {
    words: &["show", "paths", "org", "q"],
    ..CHECK
};

/// A query whose value is written.
pub const RUN: Row = Row {
    words: &["run", "org", "q", "data"],
    query: "table departments",
    out: NAMES,
    ..CHECK
};

/// A query text that `check` refuses.
pub const SYNTAX: Row = Row {
    status: 4,
    out: "",
    ..CHECK
};

/// A query that `check` refuses for its types.
pub const TYPES: Row = Row {
    status: 5,
    out: "",
    ..CHECK
};

/// Words that are no command.
pub const USAGE: Row = Row {
    status: 2,
    out: "",
    note: "nq: usage\n",
    ..CHECK
};

const ROWS: [Row; 45] = [
    CHECK,
    Row {
        query: "[9223372036854775808]",
        note: "nq: query refused: IntRange at 1\n",
        ..SYNTAX
    },
    Row {
        query: "[1 < 2 < 3]",
        note: "nq: query refused: Unexpected at 7\n",
        ..SYNTAX
    },
    Row {
        query: "[x]",
        note: "nq: query refused: Unbound at 1\n",
        ..SYNTAX
    },
    Row {
        query: "[(a = 1, a = 2)]",
        note: "nq: query refused: TwiceLabel at 9\n",
        ..SYNTAX
    },
    Row {
        query: "",
        note: "nq: query refused: Unexpected at 0\n",
        ..SYNTAX
    },
    Row {
        query: "[1 & 2]",
        note: "nq: query refused: Token at 3\n",
        ..SYNTAX
    },
    // `run` and `show types` read in the same way.
    Row {
        query: "[x]",
        status: 4,
        out: "",
        note: "nq: query refused: Unbound at 1\n",
        ..RUN
    },
    Row {
        query: "[x]",
        status: 4,
        out: "",
        note: "nq: query refused: Unbound at 1\n",
        ..SHOW
    },
    Row {
        query: "1 + 1",
        note: "nq: ill typed: rule 23 at 2\n",
        ..TYPES
    },
    Row {
        query: "[fun (x: int) -> x]",
        note: "nq: ill typed: rule 17 at 0\n",
        ..TYPES
    },
    Row {
        query: "for (d <- table departments) [d.a]",
        note: "nq: ill typed: rule 15 at 31\n",
        ..TYPES
    },
    Row {
        query: "table nobody",
        note: "nq: ill typed: rule 5 at 0\n",
        ..TYPES
    },
    Row {
        query: "[(f = 1)]",
        ..CHECK
    },
    Row {
        query: "table nobody",
        status: 5,
        out: "",
        note: "nq: ill typed: rule 5 at 0\n",
        ..RUN
    },
    Row {
        query: "1 + 1",
        status: 5,
        out: "",
        note: "nq: ill typed: rule 23 at 2\n",
        ..RUN
    },
    Row {
        query: "(table departments) ++ [: (name: text)]",
        ..RUN
    },
    RUN,
    Row {
        query: "# all of them\n((table # by name\n departments)) # and no more",
        ..RUN
    },
    Row {
        query: NESTED,
        ..CHECK
    },
    Row {
        query: NESTED,
        out: "[(department: text, employees: [(name: text, tasks: [text])])]\n",
        ..SHOW
    },
    SHOW,
    // Labels stand in byte order.
    Row {
        query: "table employees",
        out: "[(dept: text, name: text, salary: int)]\n",
        ..SHOW
    },
    Row {
        query: "[(b = 1, a = [(c = true)])]",
        out: "[(a: [(c: bool)], b: int)]\n",
        ..SHOW
    },
    Row {
        query: NESTED,
        out: "for (x1 <- table departments) [(department = x1.name, employees = for (x2 <- table employees) where (x2.dept == x1.name) [(name = x2.name, tasks = for (x3 <- table tasks) where (x3.employee == x2.name) [x3.task])])]\n",
        ..NORMAL
    },
    Row {
        query: NESTED,
        out: "/: int int | text int int
/[].employees: int int | text int int
/[].employees[].tasks: int int | text
",
        ..PATHS
    },
    Row {
        query: "for (x <- table employees) [()]",
        out: "/: int int |\n",
        ..PATHS
    },
    // The schema and the query are fetched, and nothing else.
    Row {
        failing: &[3],
        ..CHECK
    },
    Row {
        failing: &[1],
        status: 7,
        out: "",
        note: "nq: input failed: org\n",
        ..CHECK
    },
    Row {
        failing: &[2],
        status: 7,
        out: "",
        note: "nq: input failed: q\n",
        ..SHOW
    },
    Row {
        room: 2,
        status: 8,
        out: "ok",
        note: "nq: output failed\n",
        ..CHECK
    },
    Row {
        words: &["--help"],
        failing: &[1],
        room: 4000,
        out: HELP,
        ..CHECK
    },
    Row {
        words: &["--version"],
        failing: &[1],
        out: "nq 0.1.0\n",
        ..CHECK
    },
    Row {
        words: &["--version"],
        room: 4,
        status: 8,
        out: "nq 0",
        note: "nq: output failed\n",
        ..CHECK
    },
    Row {
        words: &["--help", "run"],
        failing: &[1],
        room: 1000,
        out: "\
nq run SCHEMA QUERY DIR              writes the value of the query
nq run natural SCHEMA QUERY DIR      writes it by SQL texts that name bags by keys
nq run json SCHEMA QUERY DIR         writes the value of the query as JSON
nq run json tables SCHEMA QUERY DIR  writes it as JSON over JSON tables

Examples, in the folder examples/company:

nq run org staff data
nq run natural org staff data
nq run json org outliers data
nq run json tables org outliers json
",
        ..CHECK
    },
    Row {
        words: &["--help", "--version"],
        out: "\
nq --version                         writes the name and the version of nq

An example, in any folder:

nq --version
",
        ..CHECK
    },
    Row {
        words: &["--help", "me"],
        ..USAGE
    },
    Row {
        words: &["help"],
        ..USAGE
    },
    Row {
        words: &["check", "org"],
        ..USAGE
    },
    Row {
        words: &["check", "org", "q", "data"],
        ..USAGE
    },
    Row {
        words: &["run", "org", "q"],
        ..USAGE
    },
    Row {
        words: &["show", "types", "org"],
        ..USAGE
    },
    Row {
        words: &["show", "tables", "org", "q"],
        ..USAGE
    },
    Row {
        words: &["see", "paths", "org", "q"],
        ..USAGE
    },
    Row {
        words: &["Check", "org", "q"],
        ..USAGE
    },
];

/// The inputs of a row, whose query is this text.
pub fn inputs_of(alloc: Global, row: &Row, query: List<u8>) -> Result<HeldInputs, Fail> {
    let mut files = List::new(alloc);
    put(alloc, &mut files, "org", ORG.as_bytes())?;
    put(alloc, &mut files, "q", query.as_slice())?;
    put(
        alloc,
        &mut files,
        "data/departments.csv",
        DEPARTMENTS.as_bytes(),
    )?;
    put(
        alloc,
        &mut files,
        "data/employees.csv",
        EMPLOYEES.as_bytes(),
    )?;
    put(alloc, &mut files, "data/tasks.csv", TASKS.as_bytes())?;
    put(alloc, &mut files, "data/contacts.csv", CONTACTS.as_bytes())?;
    held(alloc, files, row.failing)
}

/// Runs a row, whose query is this text.
pub fn run_row(rt: &impl Abort, alloc: Global, row: &Row, query: List<u8>) -> Result<(), Fail> {
    run_row_over(rt, alloc, Engine::Plain, row, query)
}

/// Runs a row, whose query is this text, over a server.
pub fn run_row_over(
    rt: &impl Abort,
    alloc: Global,
    engine: Engine,
    row: &Row,
    query: List<u8>,
) -> Result<(), Fail> {
    let wanted = Wanted {
        words: row.words,
        room: row.room,
        status: row.status,
        out: row.out,
        note: row.note,
    };
    let inputs = inputs_of(alloc, row, query)?;
    check_run(rt, alloc, engine, inputs, &wanted)
}

/// A text, so many opening brackets, another text, and as many closing ones.
pub fn brackets(alloc: Global, first: &str, depth: usize, inner: &str) -> Result<List<u8>, Fail> {
    let mut bytes = padded(alloc, 0, first)?;
    for _ in 0..depth {
        bytes.push(b'[')?;
    }
    for byte in inner.as_bytes() {
        bytes.push(*byte)?;
    }
    for _ in 0..depth {
        bytes.push(b']')?;
    }
    Ok(bytes)
}

#[test]
fn runs_each_row(rt: HostRuntime) -> Result<(), Fail> {
    let alloc = rt.alloc();
    for row in &ROWS {
        run_row(&rt, alloc, row, padded(alloc, 0, row.query)?)?;
    }
    Ok(())
}

#[test]
fn runs_up_to_the_limits(rt: HostRuntime) -> Result<(), Fail> {
    let alloc = rt.alloc();
    // The greatest depth is 200, and a number has depth 1.
    run_row(&rt, alloc, &CHECK, brackets(alloc, "", 199, "1")?)?;
    let deep = Row {
        note: "nq: query refused: Deep at 200\n",
        ..SYNTAX
    };
    run_row(&rt, alloc, &deep, brackets(alloc, "", 200, "1")?)?;
    // So it is for a type, which has a depth of its own.
    let mut shallow_type = brackets(alloc, "[: ", 199, "int")?;
    shallow_type.push(b']')?;
    run_row(&rt, alloc, &CHECK, shallow_type)?;
    let deep_type = Row {
        note: "nq: query refused: Deep at 202\n",
        ..SYNTAX
    };
    let mut long_type = brackets(alloc, "[: ", 200, "int")?;
    long_type.push(b']')?;
    run_row(&rt, alloc, &deep_type, long_type)?;
    // The longest query, and one that is a byte longer.
    let blank = 1_048_576 - 3;
    run_row(&rt, alloc, &CHECK, padded(alloc, blank, "[1]")?)?;
    let one = Row {
        out: "{1}\n",
        ..RUN
    };
    run_row(&rt, alloc, &one, padded(alloc, blank, "[1]")?)?;
    let long = Row {
        status: 10,
        out: "",
        note: "nq: input too long: q over 1048576\n",
        ..RUN
    };
    run_row(&rt, alloc, &long, padded(alloc, blank + 1, "[1]")?)
}
