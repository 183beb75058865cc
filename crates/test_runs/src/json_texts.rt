// Whole runs that write JSON, and those that read it.
use crate::runs::{Engine, Wanted, check_run, held, put};
use nq_edge::HeldInputs;
use nq_model::List;
use std::alloc::Global;
use std::process::Abort;
use std::test::Fail;

const SCHEMA: &str = "table departments (name: text);
table employees (dept: text, name: text, salary: int);
";

/// The words, the query and the table texts; and the status, the output and the note that are
/// wanted.
#[derive(Clone, Copy)]
struct Row {
    words: &'static [&'static str],
    query: &'static str,
    departments: &'static str,
    employees: &'static str,
    status: u8,
    out: &'static str,
    note: &'static str,
}

/// A query whose value is written as JSON, over two departments of one name.
const RUN: Row = Row {
    words: &["run", "json", "schema", "q", "data"],
    query: "for (d <- table departments)
[(d = d.name, es = for (e <- table employees) where (e.dept == d.name) [e.name])]",
    departments: "name\nProduct\nProduct\n",
    employees: "dept,name,salary\nProduct,Alex,1\nProduct,Bert,2\n",
    status: 0,
    out: "[{\"d\":\"Product\",\"es\":[\"Alex\",\"Bert\"]},{\"d\":\"Product\",\"es\":[\"Alex\",\"Bert\"]}]\n",
    note: "",
};

/// An SQL text whose rows are written as JSON, of which two are equal.
const ANSWER: Row = Row {
    words: &["answer", "json", "schema", "q", "data"],
    query: "SELECT \"e\".\"salary\" AS \"s\", \"e\".\"name\" AS \"n\", (\"e\".\"salary\" < 2) AS \"b\" FROM \"employees\" AS \"e\"",
    departments: "name\n",
    employees: "dept,name,salary\n,it's,2\n,\"a\"\"b\\\",1\n,\"tab\tnl\nx\",-10\n,it's,2\n",
    out: "[[-10,\"tab\\tnl\\nx\",true],[1,\"a\\\"b\\\\\",true],[2,\"it's\",false],[2,\"it's\",false]]\n",
    ..RUN
};

const RUNS: [Row; 13] = [
    RUN,
    Row {
        query: "for (x <- table employees) [()]",
        employees: "dept,name,salary\na,a,1\na,b,1\nb,a,1\n",
        out: "[{},{},{}]\n",
        ..RUN
    },
    Row {
        query: "for (e <- table employees) [e.salary]",
        employees: "dept,name,salary\n,,9223372036854775807\n,,-9223372036854775808\n,,-1\n",
        out: "[-9223372036854775808,-1,9223372036854775807]\n",
        ..RUN
    },
    Row {
        query: "for (e <- table employees) [(t = e.name, b = true)]",
        employees: "dept,name,salary\n,übe,1\n,\"tab\tnl\nx\",1\n,\"a\"\"b\\/\",1\n,\u{1},1\n",
        out: "[{\"b\":true,\"t\":\"\\u0001\"},{\"b\":true,\"t\":\"a\\\"b\\\\/\"},{\"b\":true,\"t\":\"tab\\tnl\\nx\"},{\"b\":true,\"t\":\"übe\"}]\n",
        ..RUN
    },
    Row {
        query: "[[2] ++ [1]] ++ [[: int]] ++ [[1] ++ [2]]",
        out: "[[],[1,2],[1,2]]\n",
        ..RUN
    },
    // A table text is refused as `run` refuses it.
    Row {
        departments: "nam\nProduct\n",
        status: 6,
        out: "",
        note: "nq: table departments refused: Header\n",
        ..RUN
    },
    // Of four words the second is a schema.
    Row {
        words: &["run", "json", "q", "data"],
        status: 7,
        out: "",
        note: "nq: input failed: json\n",
        ..RUN
    },
    // Of five words the third is one.
    Row {
        words: &["run", "json", "tables", "q", "data"],
        status: 7,
        out: "",
        note: "nq: input failed: tables\n",
        ..RUN
    },
    Row {
        words: &["run", "jso", "schema", "q", "data"],
        status: 2,
        out: "",
        note: "nq: usage\n",
        ..RUN
    },
    ANSWER,
    Row {
        query: "SELECT 1 AS \"n\" WHERE FALSE",
        out: "[]\n",
        ..ANSWER
    },
    // A text is refused as `answer` refuses it.
    Row {
        query: "SELECT",
        status: 12,
        out: "",
        note: "nq: sql refused: Unexpected at 6\n",
        ..ANSWER
    },
    Row {
        employees: "dept,name,salary\n,x,y\n",
        status: 6,
        out: "",
        note: "nq: table employees refused: BadInt row 1 column 3\n",
        ..ANSWER
    },
];

/// The text of a schema with the table departments, a query, and the JSON text of that table; and
/// the status, the output and the note that are wanted.
#[derive(Clone, Copy)]
struct TableRow {
    schema: &'static str,
    query: &'static str,
    departments: &'static str,
    status: u8,
    out: &'static str,
    note: &'static str,
}

const NAMED: TableRow = TableRow {
    schema: "table departments (name: text);",
    query: "table departments",
    departments: "[{\"name\":\"Sales\"},{\"name\":\"Product\"}]",
    status: 0,
    out: "[{\"name\":\"Product\"},{\"name\":\"Sales\"}]\n",
    note: "",
};

const REFUSED: TableRow = TableRow {
    status: 16,
    out: "",
    ..NAMED
};

const KEYED: TableRow = TableRow {
    schema: "table departments (a: int, b: text, c: bool, key (a));",
    ..REFUSED
};

const TABLES: [TableRow; 11] = [
    NAMED,
    TableRow {
        departments: "[{\"name\":5}]",
        note: "nq: table departments refused: BadCell row 1 column 1\n",
        ..REFUSED
    },
    TableRow {
        departments: "{}",
        note: "nq: table departments refused: NotArray\n",
        ..REFUSED
    },
    TableRow {
        departments: "",
        note: "nq: table departments refused: NotJson\n",
        ..REFUSED
    },
    TableRow {
        schema: "table departments (a: int, b: text, c: bool, key (a));",
        departments: "[{\"c\":true,\"a\":-1,\"b\":\"x\"},{\"a\":-2,\"b\":\"\\u0079\",\"c\":false}]",
        out: "[{\"a\":-2,\"b\":\"y\",\"c\":false},{\"a\":-1,\"b\":\"x\",\"c\":true}]\n",
        ..NAMED
    },
    TableRow {
        departments: "[{\"a\":1,\"b\":\"x\",\"c\":true},{\"a\":2,\"b\":\"x\"}]",
        note: "nq: table departments refused: BadRow row 2\n",
        ..KEYED
    },
    TableRow {
        departments: "[{\"a\":1,\"b\":\"x\",\"c\":true},{\"a\":2,\"b\":\"x\",\"c\":true},{\"a\":1,\"b\":\"y\",\"c\":true}]",
        note: "nq: table departments refused: TwiceKey row 3 earlier 1\n",
        ..KEYED
    },
    // A cell that is wrong comes before a row that is, further down.
    TableRow {
        departments: "[{\"a\":1,\"b\":2,\"c\":true},3]",
        note: "nq: table departments refused: BadCell row 1 column 2\n",
        ..KEYED
    },
    // The table before is refused before the next is fetched.
    TableRow {
        schema: SCHEMA,
        departments: "[0]",
        note: "nq: table departments refused: BadRow row 1\n",
        ..REFUSED
    },
    TableRow {
        schema: SCHEMA,
        status: 7,
        note: "nq: input failed: data/employees.json\n",
        ..REFUSED
    },
    TableRow {
        query: "[(n = 1, b = table departments)]",
        out: "[{\"b\":[{\"name\":\"Product\"},{\"name\":\"Sales\"}],\"n\":1}]\n",
        ..NAMED
    },
];

// The inputs of a row.
fn inputs_of(alloc: Global, row: &Row) -> Result<HeldInputs, Fail> {
    let mut files = List::new(alloc);
    put(alloc, &mut files, "schema", SCHEMA.as_bytes())?;
    put(alloc, &mut files, "q", row.query.as_bytes())?;
    put(
        alloc,
        &mut files,
        "data/departments.csv",
        row.departments.as_bytes(),
    )?;
    put(
        alloc,
        &mut files,
        "data/employees.csv",
        row.employees.as_bytes(),
    )?;
    held(alloc, files, &[])
}

fn check(rt: &impl Abort, alloc: Global, engine: Engine, row: &Row) -> Result<(), Fail> {
    let wanted = Wanted {
        words: row.words,
        room: 2000,
        status: row.status,
        out: row.out,
        note: row.note,
    };
    check_run(rt, alloc, engine, inputs_of(alloc, row)?, &wanted)
}

#[test]
fn writes_values_as_json(rt: HostRuntime) -> Result<(), Fail> {
    let alloc = rt.alloc();
    for row in &RUNS {
        check(&rt, alloc, Engine::Fast, row)?;
    }
    check(&rt, alloc, Engine::Crooked, &RUN)
}

fn check_table(rt: &impl Abort, alloc: Global, row: &TableRow) -> Result<(), Fail> {
    let mut files = List::new(alloc);
    put(alloc, &mut files, "schema", row.schema.as_bytes())?;
    put(alloc, &mut files, "q", row.query.as_bytes())?;
    put(
        alloc,
        &mut files,
        "data/departments.json",
        row.departments.as_bytes(),
    )?;
    let wanted = Wanted {
        words: &["run", "json", "tables", "schema", "q", "data"],
        room: 2000,
        status: row.status,
        out: row.out,
        note: row.note,
    };
    check_run(rt, alloc, Engine::Fast, held(alloc, files, &[])?, &wanted)
}

#[test]
fn reads_json_tables(rt: HostRuntime) -> Result<(), Fail> {
    let alloc = rt.alloc();
    for row in &TABLES {
        check_table(&rt, alloc, row)?;
    }
    Ok(())
}
