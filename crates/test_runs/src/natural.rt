// Whole runs by SQL texts that name bags by keys, worked out by hand.
use crate::runs::{Engine, Wanted, check_run, check_run_lent, held, put, server_of};
use nq_edge::HeldInputs;
use nq_model::List;
use std::alloc::Global;
use std::process::Abort;
use std::test::Fail;

// An organisation whose departments and employees have a key.
const KEYED: &str = "table departments (name: text, key (name));
table employees (dept: text, name: text, salary: int, key (name));
table tasks (employee: text, task: text);
";

// One whose departments alone have a key.
const HALF: &str = "table departments (name: text, key (name));
table employees (dept: text, name: text, salary: int);
table tasks (employee: text, task: text);
";

// One in which no table has a key.
const KEYLESS: &str = "table departments (name: text);
table employees (dept: text, name: text, salary: int);
table tasks (employee: text, task: text);
";

// The employees of each department.
const STAFF: &str = "for (d <- table departments)
[(d = d.name, es = for (e <- table employees) where (e.dept == d.name) [e.name])]";

// The tasks of each employee of each department.
const DEEP: &str = "for (d <- table departments) [(d = d.name,
  es = for (e <- table employees) where (e.dept == d.name)
    [(n = e.name, ts = for (t <- table tasks) where (t.employee == e.name) [t.task])])]";

// A query without an inner bag.
const FLAT: &str = "for (e <- table employees) where (e.salary > 500) [e.name]";

const NATURAL: &[&str] = &["run", "natural", "schema", "q", "data"];

const BY_NUMBERS: &[&str] = &["run", "schema", "q", "data"];

const SHOWN: &[&str] = &["show", "natural", "schema", "q"];

/// The words, the schema, the query and the table texts; and the status, the output and the note
/// that are wanted.
#[derive(Clone, Copy)]
struct Row {
    words: &'static [&'static str],
    schema: &'static str,
    query: &'static str,
    departments: &'static str,
    employees: &'static str,
    tasks: &'static str,
    status: u8,
    out: &'static str,
    note: &'static str,
}

const RUN: Row = Row {
    words: NATURAL,
    schema: KEYED,
    query: STAFF,
    departments: "name\nProduct\nQuality\nResearch\nSales\n",
    employees: "dept,name,salary\nProduct,Alex,20000\nProduct,Bert,900\nSales,Erik,2000000\n",
    tasks: "employee,task\nAlex,build\nBert,build\nErik,call\nErik,enthuse\n",
    status: 0,
    out: "{(d = 'Product', es = {'Alex', 'Bert'}), (d = 'Quality', es = {}), (d = 'Research', es = {}), (d = 'Sales', es = {'Erik'})}\n",
    note: "",
};

// A query that needs a key which no table has.
const NO_KEY: Row = Row {
    schema: KEYLESS,
    status: 14,
    out: "",
    note: "nq: no key: table departments\n",
    ..RUN
};

const ROWS: [Row; 19] = [
    RUN,
    // The second parent is of no table.
    Row {
        query: "(for (d <- table departments) where (d.name == 'Sales')
  [(n = 'a', b = for (e <- table employees) where (e.dept == d.name) [e.name])])
++ [(n = 'b', b = [: text])]",
        out: "{(b = {}, n = 'b'), (b = {'Erik'}, n = 'a')}\n",
        ..RUN
    },
    NO_KEY,
    // No bag is inside, so that no key is asked for; and by both kinds of index the value is one.
    Row {
        schema: KEYLESS,
        query: FLAT,
        out: "{'Alex', 'Bert', 'Erik'}\n",
        ..RUN
    },
    Row {
        words: BY_NUMBERS,
        schema: KEYLESS,
        query: FLAT,
        out: "{'Alex', 'Bert', 'Erik'}\n",
        ..RUN
    },
    // Only the rows of parents are named.
    Row {
        schema: HALF,
        ..RUN
    },
    Row {
        words: BY_NUMBERS,
        schema: HALF,
        ..RUN
    },
    Row {
        query: DEEP,
        out: "{(d = 'Product', es = {(n = 'Alex', ts = {'build'}), (n = 'Bert', ts = {'build'})}), (d = 'Quality', es = {}), (d = 'Research', es = {}), (d = 'Sales', es = {(n = 'Erik', ts = {'call', 'enthuse'})})}\n",
        ..RUN
    },
    Row {
        query: DEEP,
        schema: HALF,
        note: "nq: no key: table employees\n",
        ..NO_KEY
    },
    // Equal rows of a table without a key are all kept.
    Row {
        schema: HALF,
        query: "for (d <- table departments)
[(n = d.name, ts = for (t <- table tasks) where (t.employee == d.name) [t.task])]",
        departments: "name\nA\nB\n",
        tasks: "employee,task\nA,x\nA,x\nC,y\n",
        out: "{(n = 'A', ts = {'x', 'x'}), (n = 'B', ts = {})}\n",
        ..RUN
    },
    // A generator of a test needs no key.
    Row {
        schema: HALF,
        query: "for (d <- table departments)
where (empty(for (e <- table employees) where (e.dept == d.name) [e.name]))
[(n = d.name, b = [1])]",
        out: "{(b = {1}, n = 'Quality'), (b = {1}, n = 'Research')}\n",
        ..RUN
    },
    Row {
        query: "for (d <- table departments) [(n = d.name, b = [: int])]",
        departments: "name\nB\nA\n",
        out: "{(b = {}, n = 'A'), (b = {}, n = 'B')}\n",
        ..RUN
    },
    // The key is asked for before the tables are read, and after the query is typed.
    Row {
        employees: "name\n",
        ..NO_KEY
    },
    Row {
        query: "1 + 1",
        status: 5,
        note: "nq: ill typed: rule 23 at 2\n",
        ..NO_KEY
    },
    Row {
        departments: "name\nA\nA\n",
        status: 6,
        out: "",
        note: "nq: table departments refused: TwiceKey row 2 earlier 1\n",
        ..RUN
    },
    // Of four words the second is a schema.
    Row {
        words: &["run", "natural", "q", "data"],
        status: 7,
        out: "",
        note: "nq: input failed: natural\n",
        ..RUN
    },
    Row {
        words: &["stitch", "natural", "schema", "q", "data"],
        status: 2,
        out: "",
        note: "nq: usage\n",
        ..RUN
    },
    Row {
        words: SHOWN,
        out: r#"-- / 96
SELECT 0 AS "ot", "x1"."name" AS "c1", 1 AS "c2", "x1"."name" AS "c3" FROM "departments" AS "x1"
;
-- /[].es 141
SELECT 1 AS "ot", "x1"."name" AS "kt1", "x2"."name" AS "c1" FROM "departments" AS "x1", "employees" AS "x2" WHERE ("x2"."dept" = "x1"."name")
;
"#,
        ..RUN
    },
    Row {
        words: SHOWN,
        ..NO_KEY
    },
];

// The inputs of a row.
fn inputs_of(alloc: Global, row: &Row) -> Result<HeldInputs, Fail> {
    let mut files = List::new(alloc);
    put(alloc, &mut files, "schema", row.schema.as_bytes())?;
    put(alloc, &mut files, "q", row.query.as_bytes())?;
    put(
        alloc,
        &mut files,
        "data/departments.csv",
        row.departments.as_bytes(),
    )?;
    put(
        alloc,
        &mut files,
        "data/employees.csv",
        row.employees.as_bytes(),
    )?;
    put(alloc, &mut files, "data/tasks.csv", row.tasks.as_bytes())?;
    held(alloc, files, &[])
}

// What is wanted of a run of it.
fn wanted(row: &Row) -> Wanted {
    Wanted {
        words: row.words,
        room: 2000,
        status: row.status,
        out: row.out,
        note: row.note,
    }
}

fn check_rows(rt: &impl Abort, alloc: Global, engine: Engine) -> Result<(), Fail> {
    for row in &ROWS {
        check_run(rt, alloc, engine, inputs_of(alloc, row)?, &wanted(row))?;
    }
    Ok(())
}

#[test]
fn names_bags_by_keys_over_the_plain_server(rt: HostRuntime) -> Result<(), Fail> {
    check_rows(&rt, rt.alloc(), Engine::Plain)
}

#[test]
fn names_bags_by_keys_over_the_crooked_server(rt: HostRuntime) -> Result<(), Fail> {
    check_rows(&rt, rt.alloc(), Engine::Crooked)
}

#[test]
fn names_bags_by_keys_over_the_fast_server(rt: HostRuntime) -> Result<(), Fail> {
    check_rows(&rt, rt.alloc(), Engine::Fast)
}

#[test]
fn names_bags_by_keys_over_a_server_that_is_lent(rt: HostRuntime) -> Result<(), Fail> {
    let alloc = rt.alloc();
    let mut server = server_of(alloc, Engine::Fast)?;
    let inputs = inputs_of(alloc, &RUN)?;
    check_run_lent(&rt, alloc, &mut server, inputs, &wanted(&RUN))?;
    let mut other = server_of(alloc, Engine::Fast)?;
    let inputs = inputs_of(alloc, &NO_KEY)?;
    check_run_lent(&rt, alloc, &mut other, inputs, &wanted(&NO_KEY))
}

/// A schema of the tables a, b and c, a query and the texts of the tables; and the status, the
/// output and the note that are wanted.
#[derive(Clone, Copy)]
struct Letters {
    schema: &'static str,
    query: &'static str,
    a: &'static str,
    b: &'static str,
    c: &'static str,
    status: u8,
    out: &'static str,
    note: &'static str,
}

// A key of two columns in another order than the columns, and one that is no first column.
const ORDERS: Letters = Letters {
    schema: "table a (a: int, b: text, key (b, a));
table b (c: bool, d: int, key (d)); table c (e: int, key (e));",
    query: "for (x <- table a) for (y <- table b) where (y.d < x.a)
[(x = x.b, ys = for (z <- table c) where (z.e > y.d)
  [(e = z.e, more = [x.a] ++ [y.d])])]",
    a: "a,b\n1,u\n2,u\n",
    b: "c,d\ntrue,0\nfalse,1\n",
    c: "e\n1\n2\n",
    status: 0,
    out: "{(x = 'u', ys = {(e = 1, more = {0, 1}), (e = 2, more = {0, 1})}), (x = 'u', ys = {(e = 1, more = {0, 2}), (e = 2, more = {0, 2})}), (x = 'u', ys = {(e = 2, more = {1, 2})})}\n",
    note: "",
};

const LETTERS: [Letters; 3] = [
    ORDERS,
    // Parents of one inner bag in two tables, with keys of other types.
    Letters {
        schema: "table a (i: int, key (i));
table b (p: bool, s: text, v: int, key (s, p)); table c (i: int, w: text);",
        query: "(for (x <- table a)
  [(k = 'a', ws = for (y <- table c) where (y.i == x.i) [y.w])])
++ (for (x <- table b) [(k = 'b', ws = for (y <- table c) where (y.i == x.v) [y.w])])",
        a: "i\n0\n1\n",
        b: "p,s,v\nfalse,,0\ntrue,,0\nfalse,z,1\n",
        c: "i,w\n0,n\n1,e\n1,e\n",
        out: "{(k = 'a', ws = {'e', 'e'}), (k = 'a', ws = {'n'}), (k = 'b', ws = {'e', 'e'}), (k = 'b', ws = {'n'}), (k = 'b', ws = {'n'})}\n",
        ..ORDERS
    },
    Letters {
        schema: "table a (a: int, b: text, key (b, a));
table b (c: bool, d: int, key (d)); table c (e: int);",
        status: 14,
        out: "",
        note: "nq: no key: table c\n",
        ..ORDERS
    },
];

fn check_letters(rt: &impl Abort, alloc: Global, engine: Engine) -> Result<(), Fail> {
    for row in &LETTERS {
        let mut files = List::new(alloc);
        put(alloc, &mut files, "schema", row.schema.as_bytes())?;
        put(alloc, &mut files, "q", row.query.as_bytes())?;
        put(alloc, &mut files, "data/a.csv", row.a.as_bytes())?;
        put(alloc, &mut files, "data/b.csv", row.b.as_bytes())?;
        put(alloc, &mut files, "data/c.csv", row.c.as_bytes())?;
        let wanted = Wanted {
            words: NATURAL,
            room: 2000,
            status: row.status,
            out: row.out,
            note: row.note,
        };
        check_run(rt, alloc, engine, held(alloc, files, &[])?, &wanted)?;
    }
    Ok(())
}

#[test]
fn fills_indexes_to_their_layout(rt: HostRuntime) -> Result<(), Fail> {
    let alloc = rt.alloc();
    check_letters(&rt, alloc, Engine::Crooked)?;
    check_letters(&rt, alloc, Engine::Fast)
}
