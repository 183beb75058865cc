// Whole runs of nested queries, over each server.
use crate::runs::{Engine, Wanted, check_run, held, put};
use nq_edge::HeldInputs;
use nq_model::List;
use std::alloc::Global;
use std::process::Abort;
use std::test::Fail;

/// The schema of the tables of a company.
pub const ORG: &str = "table departments (name: text);
table employees (dept: text, name: text, salary: int);
table tasks (employee: text, task: text);
table contacts (dept: text, name: text, client: bool);
";

/// The text of the table of contacts.
pub const CONTACTS: &str =
    "dept,name,client\nProduct,Pam,false\nQuality,Quinn,true\nSales,Sue,true\n";

// Each department with its employees, and each of those with their tasks.
const STAFF: &str = "let tasksOf = fun (e: text) ->
  for (t <- table tasks) where (t.employee == e) [t.task];
for (d <- table departments)
[(department = d.name,
  employees = for (e <- table employees) where (e.dept == d.name)
    [(name = e.name, tasks = tasksOf(e.name))])]
";

/// A query over the texts of three tables, and what is written.
#[derive(Clone, Copy)]
pub struct Nested {
    pub query: &'static str,
    pub departments: &'static str,
    pub employees: &'static str,
    pub tasks: &'static str,
    pub out: &'static str,
}

/// Every department with its people and their tasks.
pub const WHOLE: Nested = Nested {
    query: STAFF,
    departments: "name\nProduct\nQuality\nResearch\nSales\n",
    employees: "dept,name,salary\nProduct,Alex,20000\nProduct,Bert,900\nSales,Erik,2000000\n",
    tasks: "employee,task\nAlex,build\nBert,build\nErik,call\nErik,enthuse\n",
    out: "{(department = 'Product', employees = {(name = 'Alex', tasks = {'build'}), (name = 'Bert', tasks = {'build'})}), (department = 'Quality', employees = {}), (department = 'Research', employees = {}), (department = 'Sales', employees = {(name = 'Erik', tasks = {'call', 'enthuse'})})}\n",
};

/// One department stands twice, so that numbers are tied.
pub const TWICE: Nested = Nested {
    query: "for (d <- table departments) [(d = d.name, es = for (e <- table employees) where (e.dept == d.name) [e.name])]",
    departments: "name\nProduct\nProduct\n",
    employees: "dept,name,salary\nProduct,Alex,1\nProduct,Bert,2\n",
    tasks: "employee,task\nAlex,build\nBert,call\n",
    out: "{(d = 'Product', es = {'Alex', 'Bert'}), (d = 'Product', es = {'Alex', 'Bert'})}\n",
};

const TWICE_DEEP: Nested = Nested {
    query: STAFF,
    out: "{(department = 'Product', employees = {(name = 'Alex', tasks = {'build'}), (name = 'Bert', tasks = {'call'})}), (department = 'Product', employees = {(name = 'Alex', tasks = {'build'}), (name = 'Bert', tasks = {'call'})})}\n",
    ..TWICE
};

const NESTED: [Nested; 16] = [
    WHOLE,
    Nested {
        query: "table departments",
        departments: "name\n",
        out: "{}\n",
        ..WHOLE
    },
    Nested {
        query: "[: (a: int, b: [text])]",
        out: "{}\n",
        ..WHOLE
    },
    Nested {
        query: "[[1] ++ [1]]",
        out: "{{1, 1}}\n",
        ..WHOLE
    },
    Nested {
        query: "for (x <- table employees) [()]",
        out: "{(), (), ()}\n",
        ..WHOLE
    },
    // Both parents have the number 1.
    Nested {
        query: "(for (d <- table departments) where (d.name == 'Sales') [(n = 'a', b = for (e <- table employees) where (e.dept == d.name) [e.name])]) ++ [(n = 'b', b = [: text])]",
        out: "{(b = {}, n = 'b'), (b = {'Erik'}, n = 'a')}\n",
        ..WHOLE
    },
    TWICE,
    TWICE_DEEP,
    // Functions that take functions.
    Nested {
        query: "let filter = fun (p: (dept: text, name: text, salary: int) -> bool) ->
  for (e <- table employees) where (p(e)) [e.name];
let both = fun (h: ((dept: text, name: text, salary: int) -> bool) -> [text]) ->
  h(fun (e: (dept: text, name: text, salary: int)) -> e.salary < 1000)
  ++ h(fun (e: (dept: text, name: text, salary: int)) -> e.salary > 50000);
both(filter)
",
        out: "{'Bert', 'Erik'}\n",
        ..WHOLE
    },
    Nested {
        query: "let x = 1; let f = fun (y: int) -> for (x <- [10] ++ [20]) [x + y]; f(x)",
        out: "{11, 21}\n",
        ..WHOLE
    },
    Nested {
        query: "let lo = fun (n: int) -> n < 1000;
let hi = fun (n: int) -> n > 50000;
for (c <- table contacts) for (e <- table employees)
where (e.dept == c.dept && (if c.client then hi else lo)(e.salary)) [e.name]
",
        out: "{'Bert', 'Erik'}\n",
        ..WHOLE
    },
    Nested {
        query: "for (d <- table departments) [(d = d.name, none = empty(
  (for (e <- table employees) where (e.dept == d.name) [e.name])
  ++ (for (c <- table contacts) where (c.dept == d.name
      && empty(for (t <- table tasks) where (t.employee == c.name) [t])) [c.name])))]
",
        out: "{(d = 'Product', none = false), (d = 'Quality', none = false), (d = 'Research', none = true), (d = 'Sales', none = false)}\n",
        ..WHOLE
    },
    Nested {
        query: "[9223372036854775807 + 1]",
        out: "{-9223372036854775808}\n",
        ..WHOLE
    },
    Nested {
        query: "for (a <- table departments) for (b <- table contacts) where (b.dept == a.name) [(n = b.name, one = [a.name])]",
        out: "{(n = 'Pam', one = {'Product'}), (n = 'Quinn', one = {'Quality'}), (n = 'Sue', one = {'Sales'})}\n",
        ..WHOLE
    },
    Nested {
        query: "(for (d <- table departments) [(n = d.name, s = for (e <- table employees) where (e.dept == d.name) [e.name])]) ++ (for (c <- table contacts) where (c.client) [(n = c.name, s = [c.dept])])",
        out: "{(n = 'Product', s = {'Alex', 'Bert'}), (n = 'Quality', s = {}), (n = 'Quinn', s = {'Quality'}), (n = 'Research', s = {}), (n = 'Sales', s = {'Erik'}), (n = 'Sue', s = {'Sales'})}\n",
        ..WHOLE
    },
    Nested {
        query: "for (d <- table departments) [(n = d.name, alone = for (e <- table employees) where (e.dept == d.name && empty(for (c <- table contacts) where (c.dept == d.name && c.name > e.name && !c.client) [c])) [e.name])]",
        out: "{(alone = {}, n = 'Product'), (alone = {}, n = 'Quality'), (alone = {}, n = 'Research'), (alone = {'Erik'}, n = 'Sales')}\n",
        ..WHOLE
    },
];

/// The inputs of a query.
pub fn inputs_of(alloc: Global, nested: &Nested) -> Result<HeldInputs, Fail> {
    inputs_failing(alloc, nested, &[])
}

/// The inputs of a query, of which the fetches with these numbers fail.
pub fn inputs_failing(alloc: Global, nested: &Nested, failing: &[u64]) -> Result<HeldInputs, Fail> {
    let mut files = List::new(alloc);
    put(alloc, &mut files, "org", ORG.as_bytes())?;
    put(alloc, &mut files, "q", nested.query.as_bytes())?;
    put(
        alloc,
        &mut files,
        "data/departments.csv",
        nested.departments.as_bytes(),
    )?;
    put(
        alloc,
        &mut files,
        "data/employees.csv",
        nested.employees.as_bytes(),
    )?;
    put(alloc, &mut files, "data/tasks.csv", nested.tasks.as_bytes())?;
    put(alloc, &mut files, "data/contacts.csv", CONTACTS.as_bytes())?;
    held(alloc, files, failing)
}

// What is wanted of a run of it.
fn wanted(nested: &Nested) -> Wanted {
    Wanted {
        words: &["run", "org", "q", "data"],
        room: 2000,
        status: 0,
        out: nested.out,
        note: "",
    }
}

/// Runs a query over a server.
pub fn check_nested(
    rt: &impl Abort,
    alloc: Global,
    engine: Engine,
    nested: &Nested,
) -> Result<(), Fail> {
    let inputs = inputs_of(alloc, nested)?;
    check_run(rt, alloc, engine, inputs, &wanted(nested))
}

fn check_each(rt: &impl Abort, alloc: Global, engine: Engine) -> Result<(), Fail> {
    for nested in &NESTED {
        check_nested(rt, alloc, engine, nested)?;
    }
    Ok(())
}

#[test]
fn writes_what_each_query_means(rt: HostRuntime) -> Result<(), Fail> {
    check_each(&rt, rt.alloc(), Engine::Plain)
}

#[test]
fn writes_the_same_where_ties_and_rows_come_in_reverse(rt: HostRuntime) -> Result<(), Fail> {
    check_each(&rt, rt.alloc(), Engine::Crooked)
}

#[test]
fn writes_the_same_where_sources_are_joined_by_hash_tables(rt: HostRuntime) -> Result<(), Fail> {
    check_each(&rt, rt.alloc(), Engine::Fast)
}
