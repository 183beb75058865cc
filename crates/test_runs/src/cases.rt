// Whole runs over inputs and outputs in memory.
use crate::runs::{Engine, Wanted, check_run, held, padded, put};
use nq_edge::HeldInputs;
use nq_model::{List, Text};
use std::alloc::Global;
use std::process::Abort;
use std::test::Fail;

// The words, the texts of the schema, the query, `data/departments.csv` and `data/t.csv`, the numbers of
// the calls that fail and the room of the output; and the status, the output and the note that are wanted. There is no
// file of departments where its text is empty.
#[derive(Clone, Copy)]
struct Case {
    words: &'static [&'static str],
    schema: &'static str,
    query: &'static str,
    departments: &'static str,
    t: &'static str,
    failing: &'static [u64],
    room: u64,
    status: u8,
    out: &'static str,
    note: &'static str,
}

const RUN: &[&str] = &["run", "org", "q", "data"];

const DEPARTMENTS: &str = "table departments (name: text);";

const ONE: Case = Case {
    words: RUN,
    schema: DEPARTMENTS,
    query: "table departments",
    departments: "name\nSales\nProduct\nProduct\n",
    t: "b,a\n2,x\n-1,y\n",
    failing: &[],
    room: 200,
    status: 0,
    out: "{(name = 'Product'), (name = 'Product'), (name = 'Sales')}\n",
    note: "",
};

const CASES: [Case; 18] = [
    ONE,
    Case {
        schema: "table t (b: int, a: text);",
        query: "table t",
        out: "{(a = 'x', b = 2), (a = 'y', b = -1)}\n",
        ..ONE
    },
    Case {
        query: "[1]",
        out: "{1}\n",
        ..ONE
    },
    Case {
        words: &[],
        status: 2,
        out: "",
        note: "nq: usage\n",
        ..ONE
    },
    Case {
        departments: "",
        status: 7,
        out: "",
        note: "nq: input failed: data/departments.csv\n",
        ..ONE
    },
    Case {
        departments: "name\n",
        out: "{}\n",
        ..ONE
    },
    Case {
        words: &["run", "org", "q", "data", "more"],
        status: 2,
        out: "",
        note: "nq: usage\n",
        ..ONE
    },
    Case {
        failing: &[2],
        status: 7,
        out: "",
        note: "nq: input failed: q\n",
        ..ONE
    },
    Case {
        room: 10,
        status: 8,
        out: "{(name = '",
        note: "nq: output failed\n",
        ..ONE
    },
    Case {
        schema: "table departments (name: text)",
        status: 3,
        out: "",
        note: "nq: schema refused: Syntax at 30\n",
        ..ONE
    },
    Case {
        departments: "name\nSales,2\n",
        status: 6,
        out: "",
        note: "nq: table departments refused: Width row 1\n",
        ..ONE
    },
    Case {
        schema: "  table departments(name:text) ;\n",
        query: "\n table\tdepartments ",
        ..ONE
    },
    Case {
        schema: "table t (a: text);",
        query: "table t",
        t: "a\r\n\"x, \"\"y\"\"\"\r\n\"\"\r\n",
        out: "{(a = ''), (a = 'x, \"y\"')}\n",
        ..ONE
    },
    // Rows that begin alike, and numbers on both sides of 0.
    Case {
        departments: "name\ndepartment 3\ndepartment 10\ndepartment\ndepartment 1\n",
        out: "{(name = 'department'), (name = 'department 1'), (name = 'department 10'), (name = 'department 3')}\n",
        ..ONE
    },
    Case {
        departments: "name\nz\n\u{e9}\na\0\ndep\na\ndepartment\n",
        out: "{(name = 'a'), (name = 'a\0'), (name = 'dep'), (name = 'department'), (name = 'z'), (name = '\u{e9}')}\n",
        ..ONE
    },
    Case {
        schema: "table t (n: int);",
        query: "table t",
        t: "n\n5\n-3\n9223372036854775807\n-9223372036854775808\n0\n",
        out: "{(n = -9223372036854775808), (n = -3), (n = 0), (n = 5), (n = 9223372036854775807)}\n",
        ..ONE
    },
    // Many rows that tie in their first column, and many that begin with the same eight bytes.
    Case {
        schema: "table t (a: text, n: int);",
        query: "table t",
        t: "a,n\nx,3\nx,1\nx,2\nw,9\nx,5\nx,4\n",
        out: "{(a = 'w', n = 9), (a = 'x', n = 1), (a = 'x', n = 2), (a = 'x', n = 3), (a = 'x', n = 4), (a = 'x', n = 5)}\n",
        ..ONE
    },
    Case {
        schema: "table t (a: text);",
        query: "table t",
        t: "a\naaaaaaaa5\naaaaaaaa3\nb\naaaaaaaa1\naaaaaaaa4\naaaaaaaa2\n",
        out: "{(a = 'aaaaaaaa1'), (a = 'aaaaaaaa2'), (a = 'aaaaaaaa3'), (a = 'aaaaaaaa4'), (a = 'aaaaaaaa5'), (a = 'b')}\n",
        ..ONE
    },
];

// The inputs of a case, with so many spaces before its query and before the text of `t`.
fn inputs_of(
    alloc: Global,
    case: &Case,
    before_query: usize,
    before_t: usize,
) -> Result<HeldInputs, Fail> {
    let query = padded(alloc, before_query, case.query)?;
    let t = padded(alloc, before_t, case.t)?;
    let mut files = List::new(alloc);
    put(alloc, &mut files, "org", case.schema.as_bytes())?;
    put(alloc, &mut files, "q", query.as_slice())?;
    put(alloc, &mut files, "data/t.csv", t.as_slice())?;
    if case.departments.is_empty() {
        return held(alloc, files, case.failing);
    }
    let departments = case.departments.as_bytes();
    put(alloc, &mut files, "data/departments.csv", departments)?;
    held(alloc, files, case.failing)
}

// Runs a case with so many spaces before its query and before the text of `t`.
fn check(
    rt: &impl Abort,
    alloc: Global,
    case: &Case,
    before_query: usize,
    before_t: usize,
) -> Result<(), Fail> {
    let inputs = inputs_of(alloc, case, before_query, before_t)?;
    let wanted = Wanted {
        words: case.words,
        room: case.room,
        status: case.status,
        out: case.out,
        note: case.note,
    };
    check_run(rt, alloc, Engine::Plain, inputs, &wanted)
}

#[test]
fn runs_each_case(rt: HostRuntime) -> Result<(), Fail> {
    for case in &CASES {
        check(&rt, rt.alloc(), case, 0, 0)?;
    }
    Ok(())
}

// An input that is too long.
const LONG: Case = Case {
    schema: "table departments (name: text); table t (b: int, a: text);",
    status: 10,
    out: "",
    ..ONE
};

#[test]
fn takes_inputs_of_the_limit_and_none_longer(rt: HostRuntime) -> Result<(), Fail> {
    let alloc = rt.alloc();
    check(&rt, alloc, &ONE, 1_048_576 - 17, 0)?;
    let long_query = Case {
        note: "nq: input too long: q over 1048576\n",
        ..LONG
    };
    check(&rt, alloc, &long_query, 1_048_576 - 16, 0)?;
    let long_table = Case {
        schema: "table t (b: int, a: text);",
        query: "table t",
        t: "",
        note: "nq: input too long: data/t.csv over 67108864\n",
        ..LONG
    };
    check(&rt, alloc, &long_table, 0, 67_108_865)?;
    // The text of `departments` takes 27 bytes of the limit.
    let shared = Case {
        t: "",
        note: "nq: input too long: data/t.csv over 67108837\n",
        ..LONG
    };
    check(&rt, alloc, &shared, 0, 67_108_838)
}

// A schema, a query, two table texts, and the status and the note that refuse them.
#[derive(Clone, Copy)]
struct Refusal {
    schema: &'static str,
    query: &'static str,
    employees: &'static str,
    contacts: &'static str,
    status: u8,
    note: &'static str,
}

const PEOPLE: Refusal = Refusal {
    schema: "table departments (name: text);
table employees (dept: text, name: text, salary: int);
table tasks (employee: text, task: text);
table contacts (dept: text, name: text, client: bool);
",
    query: "table departments",
    employees: "dept,name,salary\nProduct,Alex,20000\n",
    contacts: "dept,name,client\nSales,Sue,true\n",
    status: 6,
    note: "",
};

const REFUSALS: [Refusal; 11] = [
    Refusal {
        employees: "dept,name,pay\n",
        note: "nq: table employees refused: Header\n",
        ..PEOPLE
    },
    Refusal {
        employees: "",
        note: "nq: table employees refused: Header\n",
        ..PEOPLE
    },
    Refusal {
        employees: "dept,name,salary\nProduct,Alex\n",
        note: "nq: table employees refused: Width row 1\n",
        ..PEOPLE
    },
    Refusal {
        employees: "dept,name,salary\nProduct,Alex,12a\n",
        note: "nq: table employees refused: BadInt row 1 column 3\n",
        ..PEOPLE
    },
    Refusal {
        contacts: "dept,name,client\nSales,Sue,yes\n",
        note: "nq: table contacts refused: BadBool row 1 column 3\n",
        ..PEOPLE
    },
    Refusal {
        employees: "dept,name,salary\nProduct,Alex,12a\n",
        contacts: "dept,name,client\nSales,Sue,yes\n",
        note: "nq: table employees refused: BadInt row 1 column 3\n",
        ..PEOPLE
    },
    Refusal {
        schema: "table t (a: int, b: text, key (a));",
        query: "table t",
        note: "nq: table t refused: TwiceKey row 3 earlier 1\n",
        ..PEOPLE
    },
    Refusal {
        schema: "table t (a: int, a: text);",
        status: 3,
        note: "nq: schema refused: TwiceColumn at 17\n",
        ..PEOPLE
    },
    Refusal {
        schema: "table t ();",
        status: 3,
        note: "nq: schema refused: NoColumn at 6\n",
        ..PEOPLE
    },
    Refusal {
        schema: "table t (a: int, key (b));",
        status: 3,
        note: "nq: schema refused: KeyColumn at 22\n",
        ..PEOPLE
    },
    Refusal {
        schema: "table t (a: int)",
        status: 3,
        note: "nq: schema refused: Syntax at 16\n",
        ..PEOPLE
    },
];

// The texts of a refusal as inputs.
fn texts_of(alloc: Global, case: &Refusal) -> Result<HeldInputs, Fail> {
    let mut files = List::new(alloc);
    put(alloc, &mut files, "org", case.schema.as_bytes())?;
    put(alloc, &mut files, "q", case.query.as_bytes())?;
    put(alloc, &mut files, "data/departments.csv", b"name\nSales\n")?;
    put(
        alloc,
        &mut files,
        "data/employees.csv",
        case.employees.as_bytes(),
    )?;
    put(alloc, &mut files, "data/tasks.csv", b"employee,task\n")?;
    put(alloc, &mut files, "data/t.csv", b"a,b\n1,x\n2,y\n1,z\n")?;
    put(
        alloc,
        &mut files,
        "data/contacts.csv",
        case.contacts.as_bytes(),
    )?;
    held(alloc, files, &[])
}

// Runs the texts of a refusal.
fn check_refusal(rt: &impl Abort, alloc: Global, case: &Refusal) -> Result<(), Fail> {
    let wanted = Wanted {
        words: RUN,
        room: 10,
        status: case.status,
        out: "",
        note: case.note,
    };
    let inputs = texts_of(alloc, case)?;
    check_run(rt, alloc, Engine::Plain, inputs, &wanted)
}

#[test]
fn refuses_each_text(rt: HostRuntime) -> Result<(), Fail> {
    for case in &REFUSALS {
        check_refusal(&rt, rt.alloc(), case)?;
    }
    Ok(())
}

// So many tables of one column.
fn tables_text(alloc: Global, count: u64) -> Result<List<u8>, Fail> {
    let mut text = List::new(alloc);
    for number in 1..=count {
        let table = format!(in alloc; "table t{number} (a: int);")?;
        text.extend_from_slice(table.as_bytes())?;
    }
    Ok(text)
}

#[test]
fn refuses_a_schema_of_more_tables_than_the_limit(rt: HostRuntime) -> Result<(), Fail> {
    let alloc = rt.alloc();
    let mut files = List::new(alloc);
    files.push((Text::from_str(alloc, "org")?, tables_text(alloc, 65)?))?;
    let wanted = Wanted {
        words: RUN,
        room: 10,
        status: 3,
        out: "",
        note: "nq: schema refused: OverLimit at 1213\n",
    };
    let inputs = HeldInputs::new(alloc, files, List::new(alloc))?;
    check_run(&rt, alloc, Engine::Plain, inputs, &wanted)
}
